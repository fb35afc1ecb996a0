//! What a line of the input asks for.

/// The value of a document, as a line has it.
#[derive(Clone, Copy)]
pub enum Draft<'a> {
    /// The text of a note.
    Note(&'a str),
    /// The places of an order's items in the catalogue, with spaces between them.
    Order(&'a str),
}

/// What a line asks for.
#[derive(Clone, Copy)]
pub enum Request<'a> {
    /// An account for a tenant, with a limit.
    Open(&'a str, usize),
    /// Another limit for a tenant.
    Limit(&'a str, usize),
    /// The bytes above which a bill says that a tenant is over.
    Soft(&'a str, usize),
    /// Another limit for all tenants together.
    Whole(usize),
    Close(&'a str),
    /// What a tenant keeps elsewhere under a key, of so many bytes.
    Attach(&'a str, u64, usize),
    /// It grows, or it shrinks, by so many bytes.
    Charge(&'a str, u64, usize),
    Credit(&'a str, u64, usize),
    /// The most bytes that a tenant ever had are counted anew.
    Reset(&'a str),
    /// A document of a tenant under a key.
    Put(&'a str, u64, Draft<'a>),
    Get(&'a str, u64),
    Drop(&'a str, u64),
    /// More text at the end of a note, also beyond the tenant's limit.
    Append(&'a str, u64, &'a str),
    /// The largest documents of a tenant go, until the others are within its limit.
    Shed(&'a str),
    /// Another bound on the bytes of all pages.
    Bound(usize),
    Clear,
    Pages,
    Bill,
    Metrics,
    Profile,
    Report,
    /// So many of the paths that grew most.
    Most(usize),
    Picture,
    Change,
}

/// Reads a line. It is None if the line asks for nothing that the service does.
pub fn read_request(line: &str) -> Option<Request<'_>> {
    let (word, rest) = line.split_once(' ').unwrap_or((line, ""));
    match word {
        "pages" => Some(Request::Pages),
        "clear" => Some(Request::Clear),
        "bill" => Some(Request::Bill),
        "metrics" => Some(Request::Metrics),
        "profile" => Some(Request::Profile),
        "report" => Some(Request::Report),
        "picture" => Some(Request::Picture),
        "change" => Some(Request::Change),
        "close" => Some(Request::Close(read_name(rest)?)),
        "shed" => Some(Request::Shed(read_name(rest)?)),
        "reset" => Some(Request::Reset(read_name(rest)?)),
        "whole" => Some(Request::Whole(rest.parse::<usize>().ok()?)),
        "bound" => Some(Request::Bound(rest.parse::<usize>().ok()?)),
        "most" => Some(Request::Most(rest.parse::<usize>().ok()?)),
        _ => read_of_tenant(word, rest),
    }
}

/// Reads the name of a tenant, which has no space in it.
fn read_name(text: &str) -> Option<&str> {
    if text.split_once(' ').is_some() {
        return None;
    }
    Some(text)
}

/// Reads a request that names a tenant and a number.
fn read_of_tenant<'a>(word: &str, rest: &'a str) -> Option<Request<'a>> {
    let (tenant, rest) = rest.split_once(' ')?;
    let (number, value) = rest.split_once(' ').unwrap_or((rest, ""));
    let limit = number.parse::<usize>().ok()?;
    let key = limit as u64;
    match word {
        "open" => Some(Request::Open(tenant, limit)),
        "limit" => Some(Request::Limit(tenant, limit)),
        "soft" => Some(Request::Soft(tenant, limit)),
        "attach" => Some(Request::Attach(tenant, key, value.parse::<usize>().ok()?)),
        "charge" => Some(Request::Charge(tenant, key, value.parse::<usize>().ok()?)),
        "credit" => Some(Request::Credit(tenant, key, value.parse::<usize>().ok()?)),
        "get" => Some(Request::Get(tenant, key)),
        "drop" => Some(Request::Drop(tenant, key)),
        "put" => Some(Request::Put(tenant, key, read_draft(value)?)),
        "append" => Some(Request::Append(tenant, key, value)),
        _ => None,
    }
}

/// Reads the kind of a document and its value.
fn read_draft(text: &str) -> Option<Draft<'_>> {
    let (kind, value) = text.split_once(' ')?;
    match kind {
        "note" => Some(Draft::Note(value)),
        "order" => Some(Draft::Order(value)),
        _ => None,
    }
}
