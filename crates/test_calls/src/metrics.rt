//! The text of a book for Prometheus, as its format has it: of a book without accounts, of a ledger with a tenant that
//! has grown past its limit and whose name has each character that is escaped, and of a store.
use crate::texts::is_text;
use allocative_service::ledger::{Budget, Ledger, Rejection};
use allocative_service::measure::Measure;
use allocative_service::store::Store;
use std::alloc::Global;
use std::test::Fail;

const EMPTY: &str = "\
# HELP p_bytes The bytes of all tenants.
# TYPE p_bytes gauge
p_bytes 0
# HELP p_limit_bytes The most bytes that all tenants may have, unless they grow.
# TYPE p_limit_bytes gauge
p_limit_bytes +Inf
# HELP p_tenant_bytes The bytes of all entries of a tenant.
# TYPE p_tenant_bytes gauge
# HELP p_tenant_limit_bytes The most bytes that a tenant may have, unless it grows.
# TYPE p_tenant_limit_bytes gauge
# HELP p_tenant_excess_bytes By how many bytes a tenant exceeds its limit.
# TYPE p_tenant_excess_bytes gauge
# HELP p_tenant_peak_bytes The most bytes that a tenant ever had.
# TYPE p_tenant_peak_bytes gauge
";

const LEDGER: &str = r#"# HELP p:_9_bytes The bytes of all tenants.
# TYPE p:_9_bytes gauge
p:_9_bytes 8
# HELP p:_9_limit_bytes The most bytes that all tenants may have, unless they grow.
# TYPE p:_9_limit_bytes gauge
p:_9_limit_bytes 100
# HELP p:_9_tenant_bytes The bytes of all entries of a tenant.
# TYPE p:_9_tenant_bytes gauge
p:_9_tenant_bytes{tenant="a"} 0
p:_9_tenant_bytes{tenant="é\\\"\n{}="} 8
# HELP p:_9_tenant_limit_bytes The most bytes that a tenant may have, unless it grows.
# TYPE p:_9_tenant_limit_bytes gauge
p:_9_tenant_limit_bytes{tenant="a"} +Inf
p:_9_tenant_limit_bytes{tenant="é\\\"\n{}="} 5
# HELP p:_9_tenant_excess_bytes By how many bytes a tenant exceeds its limit.
# TYPE p:_9_tenant_excess_bytes gauge
p:_9_tenant_excess_bytes{tenant="a"} 0
p:_9_tenant_excess_bytes{tenant="é\\\"\n{}="} 3
# HELP p:_9_tenant_peak_bytes The most bytes that a tenant ever had.
# TYPE p:_9_tenant_peak_bytes gauge
p:_9_tenant_peak_bytes{tenant="a"} 16
p:_9_tenant_peak_bytes{tenant="é\\\"\n{}="} 8
"#;

const STORE: &str = r#"# HELP store_bytes The bytes of all tenants.
# TYPE store_bytes gauge
store_bytes 9
# HELP store_limit_bytes The most bytes that all tenants may have, unless they grow.
# TYPE store_limit_bytes gauge
store_limit_bytes +Inf
# HELP store_tenant_bytes The bytes of all entries of a tenant.
# TYPE store_tenant_bytes gauge
store_tenant_bytes{tenant=""} 9
# HELP store_tenant_limit_bytes The most bytes that a tenant may have, unless it grows.
# TYPE store_tenant_limit_bytes gauge
store_tenant_limit_bytes{tenant=""} 10
# HELP store_tenant_excess_bytes By how many bytes a tenant exceeds its limit.
# TYPE store_tenant_excess_bytes gauge
store_tenant_excess_bytes{tenant=""} 0
# HELP store_tenant_peak_bytes The most bytes that a tenant ever had.
# TYPE store_tenant_peak_bytes gauge
store_tenant_peak_bytes{tenant=""} 9
"#;

/// A ledger of two tenants: one had 16 bytes and has none, the other grew from 4 bytes to 8, past its limit of 5.
fn two_tenants(alloc: Global) -> Result<Ledger, Rejection> {
    let grown = "é\\\"\n{}=";
    let mut ledger = Ledger::new(alloc, Measure::Owned);
    ledger.set_limit(100)?;
    ledger.open(grown, Budget { limit: 5 })?;
    ledger.admit(grown, 1, &1u32)?;
    ledger.enter_growth(grown, 1, &1u64)?;
    ledger.open("a", Budget { limit: usize::MAX })?;
    ledger.record("a", 1, 16)?;
    ledger.release("a", 1);
    Ok(ledger)
}

/// A store with a byte under a number.
fn one_put(alloc: Global) -> Result<Store<u64, u8>, Rejection> {
    let mut store = Store::new(alloc, Measure::Owned);
    store.open("", Budget { limit: 10 })?;
    match store.put("", 1, 2) {
        Ok(_had) => Ok(store),
        Err(refused) => Err(refused.error),
    }
}

#[test]
fn books_have_their_text(rt: HostRuntime) -> Result<(), Fail> {
    let alloc = rt.alloc();
    let empty: Store<u64, u64> = Store::new(alloc, Measure::Owned);
    is_text(empty.metrics("p")?.as_str(), EMPTY)?;
    is_text(two_tenants(alloc)?.metrics("p:_9")?.as_str(), LEDGER)?;
    is_text(one_put(alloc)?.metrics("store")?.as_str(), STORE)
}
