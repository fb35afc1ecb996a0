//! The bytes of a book as text for Prometheus.
ghost use Rattle.std.specs.Prelude.{◌≡◌, OnOk, encode_utf8_all, true};
ghost use Rattle.allocative.specs.Format.{AppendsText, ReturnsText};
ghost use Rattle.allocative_service.specs.Metrics.{LabelLaw, escaped_char, gauge_text, head, help_of, is_metric_name};
ghost use Rattle.allocative_service.specs.Metrics.{label_value, limit_in, metrics_text, tenant_line, value_of};
ghost use Rattle.allocative_service.specs.Metrics.{value_text, whole_text, word_of};

use crate::book::{Account, Billed, Book};
use std::alloc::{AllocError, Global};

/// What a gauge says of each account.
#[derive(Clone, Copy)]
enum Gauge {
    Bytes,
    Limit,
    Excess,
    Peak,
}

impl Gauge {
    /// What follows the prefix in its name.
    fn word(self) -> &'static str
        ensures { result.now ≡ word_of self }
    {
        match self {
            Gauge::Bytes => "tenant_bytes",
            Gauge::Limit => "tenant_limit_bytes",
            Gauge::Excess => "tenant_excess_bytes",
            Gauge::Peak => "tenant_peak_bytes",
        }
    }

    /// The sentence that says what it is.
    fn help(self) -> &'static str
        ensures { result.now ≡ help_of self }
    {
        match self {
            Gauge::Bytes => "The bytes of all entries of a tenant.",
            Gauge::Limit => "The most bytes that a tenant may have, unless it grows.",
            Gauge::Excess => "By how many bytes a tenant exceeds its limit.",
            Gauge::Peak => "The most bytes that a tenant ever had.",
        }
    }

    /// The bytes of an account, or None for a limit that is none.
    fn of<K: Ord + Drop, E: Billed<K>>(self, account: &Account<K, E>) -> Option<usize>
        ensures { result ≡ value_of E.billed self account.now }
    {
        match self {
            Gauge::Bytes => Some(account.bytes()),
            Gauge::Limit => limit_in(account.limit()),
            Gauge::Excess => Some(account.excess()),
            Gauge::Peak => Some(account.peak()),
        }
    }
}

impl<K: Ord + Drop, E: Billed<K>> Book<K, E> {
    /// The bytes of a ledger or a store as text for Prometheus. It has these gauges, each with its lines `# HELP` and
    /// `# TYPE`:
    /// - `PREFIX_bytes` and `PREFIX_limit_bytes`, the bytes of all accounts together and their limit,
    /// - `PREFIX_tenant_bytes`, `PREFIX_tenant_limit_bytes`, `PREFIX_tenant_excess_bytes` and
    ///   `PREFIX_tenant_peak_bytes`, each with a line for each tenant, as `PREFIX_tenant_bytes{tenant="acme"} 40`, in
    ///   the order of their names.
    ///
    /// A limit of `usize::MAX`, which is none, is `+Inf`. The prefix must be a name by `is_metric_name`, and of two
    /// books in one text each needs its own. The only error is that memory runs out.
    pub fn metrics(&self, prefix: &str) -> Result<String, AllocError>
        requires { is_metric_name prefix.now ≡ true }
        ensures { ReturnsText result (metrics_text E.billed prefix.now self.now) }
    {
        let mut text = String::new(self.alloc);
        let bytes = Some(self.bytes());
        let help = "The bytes of all tenants.";
        self.push_whole(prefix, "bytes", help, bytes, &mut text)?;
        let limit = limit_in(self.limit());
        let help = "The most bytes that all tenants may have, unless they grow.";
        self.push_whole(prefix, "limit_bytes", help, limit, &mut text)?;
        self.push_gauge(prefix, Gauge::Bytes, &mut text)?;
        self.push_gauge(prefix, Gauge::Limit, &mut text)?;
        self.push_gauge(prefix, Gauge::Excess, &mut text)?;
        self.push_gauge(prefix, Gauge::Peak, &mut text)?;
        Ok(text)
    }

    /// Appends a gauge of all accounts together.
    #[tactic(auto, unfolding(crate::specs::Metrics::whole_text))]
    fn push_whole(
        &self,
        prefix: &str,
        word: &str,
        help: &str,
        bytes: Option<usize>,
        text: &mut String,
    ) -> Result<(), AllocError>
        ensures { OnOk result
            (AppendsText text.old text.new (whole_text prefix.now word.now help.now bytes)) }
    {
        let name = format!(in self.alloc; "{prefix}_{word}")?;
        push_head(name.as_str(), help, text)?;
        write!(text, "{name} ")?;
        push_value(bytes, text)
    }

    /// Appends a gauge of each account.
    fn push_gauge(&self, prefix: &str, gauge: Gauge, text: &mut String) -> Result<(), AllocError>
        ensures { OnOk result
            (AppendsText text.old text.new (gauge_text E.billed prefix.now self.now.accounts gauge)) }
    {
        let word = gauge.word();
        let name = format!(in self.alloc; "{prefix}_{word}")?;
        push_head(name.as_str(), gauge.help(), text)?;
        for (tenant, account) in &self.accounts {
            push_line(name.as_str(), tenant.as_str(), gauge.of(account), text)?;
        }
        Ok(())
    }
}

/// Whether a text is the name of a metric: a letter, `_` or `:`, and then letters, digits, `_` and `:`.
pub fn is_metric_name(name: &str) -> bool
    ensures { result ≡ is_metric_name name.now }
{
    let bytes = name.as_bytes();
    let Some(first) = bytes.first() else {
        return false;
    };
    !first.is_ascii_digit()
        && bytes
            .iter()
            .all(|&b| b.is_ascii_alphanumeric() || b == b'_' || b == b':')
}

/// A limit in bytes, or None for `usize::MAX`, which is none.
fn limit_in(limit: usize) -> Option<usize>
    ensures { result ≡ limit_in limit }
{
    (limit != usize::MAX).then_some(limit)
}

/// Appends the two lines that say what a gauge is.
fn push_head(name: &str, help: &str, text: &mut String) -> Result<(), AllocError>
    ensures { OnOk result (AppendsText text.old text.new (head name.now help.now)) }
{
    write!(text, "# HELP {name} {help}\n# TYPE {name} gauge\n")
}

/// Appends the line of a tenant.
fn push_line(
    name: &str,
    tenant: &str,
    bytes: Option<usize>,
    text: &mut String,
) -> Result<(), AllocError>
    ensures { OnOk result (AppendsText text.old text.new (tenant_line name.now tenant.now bytes)) }
{
    write!(text, "{name}{{tenant=\"")?;
    push_label(tenant, text)?;
    text.push_str("\"} ")?;
    push_value(bytes, text)
}

/// Appends bytes, or infinity for a limit that is none, and the end of the line.
fn push_value(bytes: Option<usize>, text: &mut String) -> Result<(), AllocError>
    ensures { OnOk result (AppendsText text.old text.new (value_text bytes)) }
{
    match bytes {
        Some(bytes) => write!(text, "{bytes}\n"),
        None => text.push_str("+Inf\n"),
    }
}

/// Appends the value of a label.
#[tactic(auto, using(crate::proofs::Labels::appends_char))]
fn push_label(value: &str, text: &mut String) -> Result<(), AllocError>
    ensures { OnOk result (AppendsText text.old text.new (label_value value.now)) }
{
    for c in value.chars() {
        push_escaped_char(c, text)?;
    }
    Ok(())
}

/// Appends a character of a label's value.
fn push_escaped_char(c: char, text: &mut String) -> Result<(), AllocError>
    ensures { OnOk result (AppendsText text.old text.new (encode_utf8_all (escaped_char c))) }
{
    match c {
        '\\' => text.push_str("\\\\"),
        '"' => text.push_str("\\\""),
        '\n' => text.push_str("\\n"),
        c => text.push(c),
    }
}

/// The value of a label reads as the text that it is of, and has no double quote and no line feed that would end it.
#[tactic(auto, using(crate::proofs::Labels::label_reads))]
pub fn label_law()
    ensures { LabelLaw }
{}
