//! What a service needs beside its values: a limit in bytes for each tenant, a store that keeps the tenants' values, a
//! cache bounded in bytes, and a history of profiles that says what changed.
#![tactic(auto)]

pub mod book;
pub mod cache;
pub mod history;
pub mod kept;
pub mod ledger;
pub mod measure;
pub mod metrics;
pub mod store;
