//! Names of machines.

ghost use Rattle.std.specs.Prelude.{◌≡◌, ◌==◌, ◌+◌, ◌≤◌, ℕ, List, [], length, true, not, IfOk};
ghost use Rattle.std.specs.List.{position};
ghost use Rattle.std.specs.Ordering.{nat_cmp, as_partial_cmp};
ghost use Rattle.std.specs.Cmp.{partial_order_from_own_ties};
ghost use Rattle.std.specs.Cmp.Rules.{comparing};
ghost use Rattle.std.specs.Cmp.Lexicographic.{pointwise, slice_cmp};
ghost use Rattle.std.proofs.Common.{rules};
ghost use Rattle.p2p_discovery.specs.Reading.{Gives, is_within};
ghost use Rattle.p2p_discovery.specs.Laws.Fields.{lawful_unlimited};
ghost use Rattle.p2p_discovery.specs.Hostname.{is_label, is_hostname, host_limit, formed, named};
ghost use Rattle.p2p_discovery.specs.Hostname.{IsHostname, hostname_spelling, hostname_at};
ghost use Rattle.p2p_discovery.specs.Hostname.{is_name_byte, are_name_bytes};
ghost use Rattle.p2p_discovery.specs.Laws.Hostname.{lawful_hostname, hostname_short};

use crate::codec::{
    CodecError, EncodeSize, MaxEncodeSize, RangeCfg, Read, Reader, What, Write, counted_size,
    read_length, write_counted,
};
use bytes::BytesMut;
use std::alloc::{AllocError, Global};
use std::cmp::Ordering;
use std::marker::Model;

/// The name of a machine, seen by contracts as its bytes. It is ordered by its bytes, and equal if
/// they are: letters are kept as written.
///
/// A name has 1 to 253 bytes. It consists of labels joined by single dots. A label has 1 to 63
/// letters, digits and hyphens of ASCII, with no hyphen at either end.
#[derive(Debug, Drop)]
pub struct Hostname {
    text: String,
}

impl Model for Hostname {
    ghost use Rattle.std.specs.Prelude.{ℕ, List, string_bytes};
    ghost use Rattle.p2p_discovery.specs.Hostname.{IsHostname};

    ghost Value = { List ℕ };

    ghost view = { λ h. string_bytes h.text };

    ghost invariant = { λ h. IsHostname (string_bytes h.text) };
}

const LENGTHS: RangeCfg = RangeCfg {
    least: 1,
    greatest: 253,
};

impl Hostname {
    /// The host name that the text is.
    ///
    /// # Errors
    ///
    /// `InvalidLength` if it has no bytes or more than 253, which is checked first;
    /// `Invalid(Hostname)` if it has not the form of a name; `Memory` if it is a name and
    /// allocation fails.
    ///
    /// # Cost
    ///
    /// A few passes over the text, which is copied once.
    #[tactic(auto, unfolding(crate::specs::Hostname::named))]
    pub fn new(alloc: Global, text: &str) -> Result<Hostname, CodecError>
        ensures { Gives result [] (named text.now) }
    {
        let length = text.len();
        if !LENGTHS.contains(length) {
            return Err(CodecError::InvalidLength(length));
        }
        Hostname::from_bytes(alloc, text.as_bytes())
    }

    /// The text of the host name.
    pub fn as_str(&self) -> &str
        ensures text { result.now ≡ self.now }
        ensures is { IsHostname self.now }
    {
        self.text.as_str()
    }

    /// An equal host name.
    ///
    /// # Errors
    ///
    /// `AllocError` if allocation fails.
    ///
    /// # Cost
    ///
    /// The text is copied once.
    pub fn clone(&self) -> Result<Hostname, AllocError>
        ensures { IfOk result (λ copy. copy ≡ self.now) }
    {
        Ok(Hostname {
            text: self.text.clone()?,
        })
    }

    // A host name of these bytes, whose number is one that a name may have.
    #[tactic(auto, unfolding(crate::specs::Hostname::formed))]
    fn from_bytes(alloc: Global, text: &[u8]) -> Result<Hostname, CodecError>
        requires { is_within host_limit (length text.now) ≡ true }
        ensures { (rest : List ℕ) → Gives result rest (formed text.now rest) }
    {
        if !is_name(text) {
            return Err(CodecError::Invalid(What::Hostname));
        }
        match str::from_utf8(text) {
            Ok(text) => Ok(Hostname {
                text: String::from_str(alloc, text)?,
            }),
            Err(_) => unreachable!(),
        }
    }
}

// Whether the bytes are a host name, labels joined by single dots. A label ends before the first
// byte that none has, as a dot is.
fn is_name(text: &[u8]) -> bool
    ensures { result ≡ is_hostname text.now }
{
    match label_end(text) {
        None => is_label_of(text),
        Some(at) if text[at] == b'.' => is_label_of(&text[..at]) && is_name(&text[at + 1..]),
        Some(_) => false,
    }
}

// The position of the first byte that no label of a host name has.
fn label_end(text: &[u8]) -> Option<usize>
    ensures { result ≡ position (λ b. not (is_name_byte b)) text.now }
{
    text.iter().position(|b| !is_name_part(*b))
}

// Whether letters, digits and hyphens are a label of a host name.
#[tactic(auto, unfolding(crate::specs::Hostname::is_label))]
fn is_label_of(l: &[u8]) -> bool
    requires { are_name_bytes l.now ≡ true }
    ensures { result ≡ is_label l.now }
{
    !l.is_empty() && l.len() <= 63 && l[0] != b'-' && l[l.len() - 1] != b'-'
}

fn is_name_part(b: u8) -> bool
    ensures { result ≡ is_name_byte b }
{
    b.is_ascii_alphanumeric() || b == b'-'
}

impl PartialEq for Hostname {
    ghost eq = { pointwise ◌==◌ };

    ghost laws = { Prim.search (comparing, rules) };

    fn eq(&self, other: &Hostname) -> bool {
        self.text == other.text
    }
}

impl Eq for Hostname {
    ghost laws = { Prim.search (comparing, rules) };
}

impl Ord for Hostname {
    ghost cmp = { slice_cmp nat_cmp };

    ghost total = { Prim.search (comparing, rules) };

    ghost matches_partial_cmp = { Prim.search (comparing, rules) };

    ghost matches_eq = { Prim.search (comparing, rules) };

    fn cmp(&self, other: &Hostname) -> Ordering {
        self.text.cmp(&other.text)
    }
}

impl PartialOrd for Hostname {
    ghost partial_cmp = { as_partial_cmp (slice_cmp nat_cmp) };

    ghost laws = { partial_order_from_own_ties (Prim.search (comparing, rules))
        (Prim.search (comparing, rules)) };

    fn partial_cmp(&self, other: &Hostname) -> Option<Ordering> {
        Some(self.cmp(other))
    }
}

impl EncodeSize for Hostname {
    ghost IsValue = { IsHostname };

    ghost CanSpell = { λ _. Unit {0} };

    ghost spelling = { hostname_spelling };

    fn encode_size(&self) -> usize
        ensures size { result ≡ length (hostname_spelling self.now) }
        ensures value { IsHostname self.now }
        ensures bound { result ≤ 258 }
    {
        counted_size(self.as_str().as_bytes())
    }
}

impl MaxEncodeSize for Hostname {
    ghost MAX_ENCODE_SIZE = { 258 };

    const MAX_ENCODE_SIZE: usize = 258;

    ghost at_most_max = { hostname_short };
}

impl Write for Hostname {
    fn write(&self, buf: &mut BytesMut) {
        write_counted(self.as_str().as_bytes(), buf);
    }
}

impl Read for Hostname {
    type Cfg = ();

    ghost Admits = { λ _ _. Unit {0} };

    ghost reading = { λ _. hostname_at };

    // Reads a host name by a call of its own, which keeps the reading of an address without a name
    // short.
    #[inline(never)]
    #[tactic(auto, unfolding(crate::specs::Hostname::hostname_at))]
    fn read(alloc: Global, reader: &mut Reader<'_>, _cfg: &()) -> Result<Hostname, CodecError> {
        let length = read_length(alloc, reader, &LENGTHS)?;
        let text = reader.counted(length)?;
        Hostname::from_bytes(alloc, text)
    }

    ghost lawful = { λ _. lawful_unlimited lawful_hostname };
}
