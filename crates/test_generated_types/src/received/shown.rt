//! What the types of `received` show. `bin/implement` of `allocative` wrote it.
#![tactic(auto, using(allocative::proofs::Parts::parts))]

ghost use Rattle.std.specs.Prelude.{Some, codes, false, length, true};
ghost use Rattle.allocative.specs.Shows as shows;
ghost use Rattle.allocative.specs.Layouts.{declared, empty, pad_to_align, ◌or◌, ◌with◌};
ghost use Rattle.allocative_tally.specs.Whole.{is_whole, starting};
ghost use Rattle.allocative_tally.specs.Shapes.{Beside, NoEntry, entries, pointers_shape};
ghost use Rattle.url.specs.Parts.{serialize};
ghost use Rattle.std.specs.Path.{path_buf_bytes};

use super::*;
use allocative::{
    Allocative, Declared, Described, Field, Inside, Layout, Part, Refusal, Unique, Visitor, Whole,
};
use allocative_tally::field::{FieldMany, PointersMany, SizedMany, TypedMany};
use allocative_tally::tally::{CountError, Entries, Tallied, added, count_bytes, declared};

/// A `PathBuf` as it is shown: its size, and the bytes of its buffer.
#[derive(Drop)]
struct ShownPathBuf<'a>(&'a std::path::PathBuf);

impl<'a> Part for ShownPathBuf<'a> {
    ghost may_show = { λ x. shows.Inside (codes "PathBuf") 24 (shows.Unique (codes "ptr") 8 (shows.Inside (codes "u8") (length (path_buf_bytes x.0.now)) shows.Nothing)) };

    ghost is_strict = { true };

    fn enter(self, visitor: &mut Visitor<'_>) -> Result<(), Refusal> {
        let bytes = Inside("u8", self.0.as_str().len(), ());
        Inside("PathBuf", 24, Unique("ptr", 8, bytes)).enter(visitor)
    }
}

/// The fields of the variant `File` of `Origin`.
struct OriginFileFields;

impl Described for OriginFileFields {
    ghost layout = { pad_to_align (empty (codes "File")
        with declared (codes "path") 24 8 true
        with ⟦<u64 as Described>⟧.layout) };

    fn layout() -> Layout {
        Layout::empty("File")
            .with(Layout::new("path", 24, 8, true))
            .with(u64::layout())
            .pad_to_align()
    }
}

impl Described for Origin {
    ghost layout = { pad_to_align (empty (codes "Origin")
        with ⟦<u8 as Described>⟧.layout
        with (declared (codes "part0") 32 4 false
        or (empty (codes "File")
        with declared (codes "path") 24 8 true
        with ⟦<u64 as Described>⟧.layout))) };

    fn layout() -> Layout {
        Layout::empty("Origin")
            .with(u8::layout())
            .with(Layout::new("part0", 32, 4, false).or(
                Layout::empty("File")
                    .with(Layout::new("path", 24, 8, true))
                    .with(u64::layout()),
            ))
            .pad_to_align()
    }
}

impl Allocative for Origin {
    ghost use Rattle.test_generated_types.specs.declared.received.Origin.TheVariants.{Peer, File};

    ghost may_show = { λ x. shows.Field (codes "Origin") ⟦<Origin as Described>⟧.layout.size (elim x [
      | Peer a ↦ shows.Inside (codes "Peer") 32 (shows.Inside (codes "SocketAddr") 32 shows.Nothing)
      | File a b ↦ shows.Field (codes "File") ⟦<OriginFileFields as Described>⟧.layout.size
          (shows.Both
          (shows.Inside (codes "path") 24 (shows.Inside (codes "PathBuf") 24 (shows.Unique (codes "ptr") 8 (shows.Inside (codes "u8") (length (path_buf_bytes a)) shows.Nothing))))
          (shows.Field (codes "line") ⟦<u64 as Described>⟧.layout.size (⟦<u64 as Allocative>⟧.may_show b)))
    ]) };

    ghost is_strict = { true };

    fn visit(&self, visitor: &mut Visitor<'_>) -> Result<(), Refusal> {
        match self {
            Origin::Peer(_) => {
                let a = Inside("Peer", 32, Inside("SocketAddr", 32, ()));
                Whole(self, a).enter(visitor)
            }
            Origin::File { path, line } => {
                let path = Inside("path", 24, ShownPathBuf(path));
                let line = Field("line", line);
                let inside = Declared("File", <OriginFileFields>::size(), (path, line));
                Whole(self, inside).enter(visitor)
            }
        }
    }
}

/// Values of `Origin`, counted.
#[derive(Default, Drop)]
pub struct OriginTally {
    peer_value: usize,
    file_count: usize,
    file_path: usize,
    file_line: <u64 as Tallied>::Tally,
}

impl Tallied for Origin {
    type Tally = OriginTally;

    ghost shape = { λ tally count. entries (codes "Origin") ⟦<Origin as Described>⟧.layout.size count
        (Beside (entries (codes "Peer") (Some 32) tally.peer_value
        (entries (codes "SocketAddr") (Some 32) tally.peer_value
        NoEntry))
        (entries (codes "File") ⟦<OriginFileFields as Described>⟧.layout.size tally.file_count
        (Beside (entries (codes "path") (Some 24) tally.file_count
        (entries (codes "PathBuf") (Some 24) tally.file_count
        (pointers_shape 8 (codes "u8") tally.file_count tally.file_path)))
        (entries (codes "line") ⟦<u64 as Described>⟧.layout.size tally.file_count (⟦<u64 as Tallied>⟧.shape tally.file_line tally.file_count))))) };

    ghost whole = { is_whole (Prim.search starting) };

    fn show(tally: &Self::Tally, count: usize, visitor: &mut Visitor<'_>) -> Result<(), Refusal> {
        TypedMany(
            std::marker::PhantomData::<Origin>,
            "Origin",
            count,
            (
                SizedMany(
                    "Peer",
                    Some(32),
                    tally.peer_value,
                    SizedMany("SocketAddr", Some(32), tally.peer_value, ()),
                ),
                TypedMany(
                    std::marker::PhantomData::<OriginFileFields>,
                    "File",
                    tally.file_count,
                    (
                        SizedMany(
                            "path",
                            Some(24),
                            tally.file_count,
                            SizedMany(
                                "PathBuf",
                                Some(24),
                                tally.file_count,
                                PointersMany(8, "u8", tally.file_count, tally.file_path),
                            ),
                        ),
                        FieldMany::<u64>("line", &tally.file_line, tally.file_count),
                    ),
                ),
            ),
        )
        .enter(visitor)
    }

    #[inline(always)]
    fn tally(&self, tally: &mut Self::Tally) -> Result<(), CountError> {
        declared::<Origin>()?;
        match self {
            Origin::Peer(_) => {
                tally.peer_value = added(tally.peer_value, 1)?;
                Ok(())
            }
            Origin::File { path, line } => {
                declared::<OriginFileFields>()?;
                tally.file_count = added(tally.file_count, 1)?;
                let path = count_bytes(&mut tally.file_path, path.as_str().len());
                let line = Tallied::tally(line, &mut tally.file_line);
                path.and(line)
            }
        }
    }
}

/// A `Url` as it is shown: its size, and the bytes of its buffer.
#[derive(Drop)]
struct ShownUrl<'a>(&'a url::Url);

impl<'a> Part for ShownUrl<'a> {
    ghost may_show = { λ x. shows.Inside (codes "Url") 88 (shows.Unique (codes "ptr") 8 (shows.Inside (codes "u8") (length (serialize x.0.now)) shows.Nothing)) };

    ghost is_strict = { true };

    fn enter(self, visitor: &mut Visitor<'_>) -> Result<(), Refusal> {
        let bytes = Inside("u8", self.0.as_str().len(), ());
        Inside("Url", 88, Unique("ptr", 8, bytes)).enter(visitor)
    }
}

/// A `Bytes` as it is shown: its size, and the bytes of its buffer.
#[derive(Drop)]
struct ShownBytes<'a>(&'a bytes::Bytes);

impl<'a> Part for ShownBytes<'a> {
    ghost may_show = { λ x. shows.Inside (codes "Bytes") 32 (shows.Unique (codes "ptr") 8 (shows.Inside (codes "u8") (length x.0.now) shows.Nothing)) };

    ghost is_strict = { true };

    fn enter(self, visitor: &mut Visitor<'_>) -> Result<(), Refusal> {
        let bytes = Inside("u8", self.0.len(), ());
        Inside("Bytes", 32, Unique("ptr", 8, bytes)).enter(visitor)
    }
}

impl Described for Received {
    ghost layout = { pad_to_align (empty (codes "Received")
        with declared (codes "id") 16 1 false
        with declared (codes "callback") 88 8 true
        with declared (codes "body") 32 8 true
        with declared (codes "peer") 32 4 false
        with declared (codes "file") 24 8 true
        with declared (codes "tried") 17 1 false) };

    fn layout() -> Layout {
        Layout::empty("Received")
            .with(Layout::new("id", 16, 1, false))
            .with(Layout::new("callback", 88, 8, true))
            .with(Layout::new("body", 32, 8, true))
            .with(Layout::new("peer", 32, 4, false))
            .with(Layout::new("file", 24, 8, true))
            .with(Layout::new("tried", 17, 1, false))
            .pad_to_align()
    }
}

impl Allocative for Received {
    ghost may_show = { λ x. shows.Field (codes "Received") ⟦<Received as Described>⟧.layout.size
        (shows.Both
        (shows.Both
        (shows.Inside (codes "id") 16 (shows.Inside (codes "Uuid") 16 shows.Nothing)) (shows.Both
        (shows.Inside (codes "callback") 88 (shows.Inside (codes "Url") 88 (shows.Unique (codes "ptr") 8 (shows.Inside (codes "u8") (length (serialize x.callback)) shows.Nothing)))) (shows.Both
        (shows.Inside (codes "body") 32 (shows.Inside (codes "Bytes") 32 (shows.Unique (codes "ptr") 8 (shows.Inside (codes "u8") (length x.body) shows.Nothing)))) (shows.Both
        (shows.Inside (codes "peer") 32 (shows.Inside (codes "SocketAddr") 32 shows.Nothing))
        (shows.Inside (codes "file") 24 (shows.Inside (codes "PathBuf") 24 (shows.Unique (codes "ptr") 8 (shows.Inside (codes "u8") (length (path_buf_bytes x.file)) shows.Nothing))))))))
        (shows.Inside (codes "tried") 17 (shows.Inside (codes "Option") 17 shows.Nothing))) };

    ghost is_strict = { true };

    fn visit(&self, visitor: &mut Visitor<'_>) -> Result<(), Refusal> {
        let id = Inside("id", 16, Inside("Uuid", 16, ()));
        let callback = Inside("callback", 88, ShownUrl(&self.callback));
        let body = Inside("body", 32, ShownBytes(&self.body));
        let peer = Inside("peer", 32, Inside("SocketAddr", 32, ()));
        let file = Inside("file", 24, ShownPathBuf(&self.file));
        let tried = Inside("tried", 17, Inside("Option", 17, ()));
        Whole(self, ((id, callback, body, peer, file), tried)).enter(visitor)
    }
}

/// Values of `Received`, counted.
#[derive(Default, Drop)]
pub struct ReceivedTally {
    callback: usize,
    body: usize,
    file: usize,
}

impl Tallied for Received {
    type Tally = ReceivedTally;

    ghost shape = { λ tally count. entries (codes "Received") ⟦<Received as Described>⟧.layout.size count
        (Beside (Beside (entries (codes "id") (Some 16) count
        (entries (codes "Uuid") (Some 16) count
        NoEntry))
        (Beside (entries (codes "callback") (Some 88) count
        (entries (codes "Url") (Some 88) count
        (pointers_shape 8 (codes "u8") count tally.callback)))
        (Beside (entries (codes "body") (Some 32) count
        (entries (codes "Bytes") (Some 32) count
        (pointers_shape 8 (codes "u8") count tally.body)))
        (Beside (entries (codes "peer") (Some 32) count
        (entries (codes "SocketAddr") (Some 32) count
        NoEntry))
        (entries (codes "file") (Some 24) count
        (entries (codes "PathBuf") (Some 24) count
        (pointers_shape 8 (codes "u8") count tally.file)))))))
        (entries (codes "tried") (Some 17) count
        (entries (codes "Option") (Some 17) count
        NoEntry))) };

    ghost whole = { is_whole (Prim.search starting) };

    fn show(tally: &Self::Tally, count: usize, visitor: &mut Visitor<'_>) -> Result<(), Refusal> {
        TypedMany(
            std::marker::PhantomData::<Received>,
            "Received",
            count,
            (
                (
                    SizedMany(
                        "id",
                        Some(16),
                        count,
                        SizedMany("Uuid", Some(16), count, ()),
                    ),
                    (
                        SizedMany(
                            "callback",
                            Some(88),
                            count,
                            SizedMany(
                                "Url",
                                Some(88),
                                count,
                                PointersMany(8, "u8", count, tally.callback),
                            ),
                        ),
                        (
                            SizedMany(
                                "body",
                                Some(32),
                                count,
                                SizedMany(
                                    "Bytes",
                                    Some(32),
                                    count,
                                    PointersMany(8, "u8", count, tally.body),
                                ),
                            ),
                            (
                                SizedMany(
                                    "peer",
                                    Some(32),
                                    count,
                                    SizedMany("SocketAddr", Some(32), count, ()),
                                ),
                                SizedMany(
                                    "file",
                                    Some(24),
                                    count,
                                    SizedMany(
                                        "PathBuf",
                                        Some(24),
                                        count,
                                        PointersMany(8, "u8", count, tally.file),
                                    ),
                                ),
                            ),
                        ),
                    ),
                ),
                SizedMany(
                    "tried",
                    Some(17),
                    count,
                    SizedMany("Option", Some(17), count, ()),
                ),
            ),
        )
        .enter(visitor)
    }

    #[inline(always)]
    fn tally(&self, tally: &mut Self::Tally) -> Result<(), CountError> {
        declared::<Received>()?;
        let callback = count_bytes(&mut tally.callback, self.callback.as_str().len());
        let body = count_bytes(&mut tally.body, self.body.len());
        let file = count_bytes(&mut tally.file, self.file.as_str().len());
        callback.and(body.and(file))
    }
}
