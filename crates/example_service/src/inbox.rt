//! The lines that the service reads: each is billed while it is answered.
ghost use Rattle.std.specs.Prelude.{◌≡◌, ◌+◌, IfOk, None, OnErr, string_capacity};
ghost use Rattle.allocative_service.specs.Ledger.{Enters};

use allocative_service::ledger::{Ledger, Rejection};
use allocative_service::measure::text_bytes_law;

/// Admits a text as a new entry of a tenant, and returns the bytes of all its entries. Whatever the ledger measures,
/// the text is billed 24 bytes and its capacity: a proof takes that from `text_bytes_law`. The errors are those of
/// `Ledger::admit`, and after one the ledger is unchanged.
pub fn admit_text(
    ledger: &mut Ledger,
    tenant: &str,
    number: u64,
    text: &String,
) -> Result<usize, Rejection>
    ensures billed { IfOk result
        (Enters tenant.now number (24 + string_capacity text.now) None ledger.old ledger.new) }
    ensures unchanged { OnErr result (ledger.new ≡ ledger.old) }
{
    text_bytes_law();
    let bytes = ledger.admit(tenant, number, text)?;
    Ok(bytes)
}
