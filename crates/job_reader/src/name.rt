// Names of items, openings, compartments and damage cases.
ghost use Rattle.std.specs.Prelude.{◌≡◌, ◌↔◌, ◌==◌, true, IsSome, IfSome};
ghost use Rattle.std.proofs.Common.{rules};
ghost use Rattle.std.specs.Cmp.Lexicographic.{pointwise, nat_list_eq_equiv};
ghost use Rattle.std.specs.Cmp.{partial_equiv_from_equiv};
ghost use Rattle.std.specs.Cmp.Rules.{hashing};
ghost use Rattle.std.specs.Hash as fed;
ghost use Rattle.std.specs.List.{list_all};
ghost use Rattle.job_reader.specs.Names.{is_name, is_name_byte};

use arrayvec::ArrayString;
use std::hash::{Hash, Hasher};
use std::marker::Model;

/// The most bytes of a name.
const MOST_BYTES: usize = 32;

/// A name: 1 to 32 bytes, each an ASCII letter, a digit, `_`, `-` or `.`. Contracts see its bytes.
#[derive(Debug, Drop)]
pub struct Name {
    text: ArrayString<32>,
}

impl Model for Name {
    ghost use Rattle.std.specs.Prelude.{List, ℕ, ◌≡◌, true};
    ghost use Rattle.job_reader.specs.Names.{is_name};

    ghost Value = { List ℕ };

    ghost view = { λ name. name.text.bytes };

    ghost invariant = { λ name. is_name name.text.bytes ≡ true };
}

impl Name {
    /// The name of this text: Some exactly where it is a name.
    pub fn of(text: &str) -> Option<Name>
        ensures some { IsSome result ↔ (is_name text.now ≡ true) }
        ensures same { IfSome result (λ name. name ≡ text.now) }
    {
        if !is_name(text) {
            return None;
        }
        match ArrayString::from(text) {
            Ok(text) => Some(Name { text }),
            Err(_) => unreachable!(),
        }
    }

    /// The text of the name.
    pub fn as_str(&self) -> &str
        ensures { result.now ≡ self.now }
    {
        self.text.as_str()
    }

    pub(crate) fn copied(&self) -> Name
        ensures { result ≡ self.now }
    {
        Name { text: self.text }
    }
}

pub(crate) fn is_name(text: &str) -> bool
    ensures { result ≡ is_name text.now }
{
    1 <= text.len() && text.len() <= MOST_BYTES && are_name_bytes(text.as_bytes())
}

fn are_name_bytes(bytes: &[u8]) -> bool
    ensures { result ≡ list_all is_name_byte bytes.now }
{
    bytes.iter().all(|byte| is_name_byte(*byte))
}

fn is_name_byte(byte: u8) -> bool
    ensures { result ≡ is_name_byte byte }
{
    byte.is_ascii_alphanumeric() || matches!(byte, b'_' | b'-' | b'.')
}

impl PartialEq for Name {
    ghost eq = { pointwise ◌==◌ };

    ghost laws = { partial_equiv_from_equiv nat_list_eq_equiv };

    fn eq(&self, other: &Name) -> bool {
        self.as_str() == other.as_str()
    }
}

impl Eq for Name {
    ghost laws = { nat_list_eq_equiv };
}

impl Hash for Name {
    ghost hash_input = { λ n. fed.str n };

    ghost respects_eq = { Prim.search (hashing, rules) };

    fn hash<H: Hasher>(&self, state: &mut H) {
        self.as_str().hash(state);
    }
}
