//! A type with fields that have no implementation: each is shown by its size, or by that and its length.

mod shown;

use bytes::Bytes;
use std::net::SocketAddr;
use std::path::PathBuf;
use url::Url;
use uuid::Uuid;

/// Where a request came from.
#[derive(Drop)]
pub enum Origin {
    Peer(SocketAddr),
    File { path: PathBuf, line: u64 },
}

/// A request that was received.
#[derive(Drop)]
pub struct Received {
    pub id: Uuid,
    pub callback: Url,
    pub body: Bytes,
    pub peer: SocketAddr,
    pub file: PathBuf,
    pub tried: Option<Uuid>,
}
