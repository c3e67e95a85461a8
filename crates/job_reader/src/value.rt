// What a table has under a key: a whole number or a name.
ghost use Rattle.std.specs.Prelude.{◌≡◌, true, OnOk, if◌then◌else◌, nat_abs, IfOk, IfErr, IfSome, option_map};
ghost use Rattle.std.specs.Str.{bytes_eq};
ghost use Rattle.toml.specs.View.{table_view, view};
ghost use Rattle.job_reader.specs.Limits.{is_from, is_whole_from, is_whole_near};
ghost use Rattle.job_reader.specs.Values as spec;

use crate::rule::{Signed, Whole};
use crate::{JobFault, Key, Name};
use toml::{Table, Value};

/// The value under a key.
pub(crate) fn value_at(table: &Table, key: Key) -> Option<&Value>
    ensures { option_map (λ v. view v.now) result ≡ spec.at key (table_view table.now) }
{
    table.get(key.word())
}

/// Refuses a table that has a key other than these.
pub(crate) fn check_keys(table: &Table, keys: &[Key], key: Key, entry: u32) -> Result<(), JobFault>
    ensures ok { OnOk result (spec.unknown_fault keys.now key entry (table_view table.now) ≡ None) }
    ensures err { IfErr result (λ e. spec.unknown_fault keys.now key entry (table_view table.now) ≡ Some e) }
{
    if has_only(table, keys) {
        Ok(())
    } else {
        Err(JobFault::Unknown { key, entry })
    }
}

fn has_only(table: &Table, keys: &[Key]) -> bool
    ensures { result ≡ spec.has_only keys.now (table_view table.now) }
{
    for (word, _) in table {
        if !is_word_of(keys, word.as_str()) {
            return false;
        }
    }
    true
}

fn is_word_of(keys: &[Key], word: &str) -> bool
    ensures { result ≡ spec.is_word_of keys.now word.now }
{
    keys.iter().any(|key| key.word() == word)
}

impl Whole {
    /// The number that a table has under the key.
    pub(crate) fn read(&self, table: &Table, entry: u32) -> Result<u64, JobFault>
        requires default { IfSome self.now.default (λ n. is_from self.now.least self.now.most n ≡ true) }
        ensures ok { OnOk result (spec.whole_fault self.now entry (table_view table.now) ≡ None) }
        ensures value { IfOk result (λ n. n ≡ spec.whole_of self.now (table_view table.now)) }
        ensures range { IfOk result (λ n. is_from self.now.least self.now.most n ≡ true) }
        ensures err { IfErr result (λ e. spec.whole_fault self.now entry (table_view table.now) ≡ Some e) }
    {
        let key = self.key;
        match value_at(table, key) {
            None => self.default.ok_or(JobFault::Missing { key, entry }),
            Some(value) => match value.as_integer() {
                None => Err(JobFault::Kind { key, entry }),
                Some(number) => number_within(number, self.least, self.most).ok_or(JobFault::Range {
                    key,
                    entry,
                }),
            },
        }
    }
}

impl Signed {
    /// The number that a table has under the key.
    pub(crate) fn read(&self, table: &Table, entry: u32) -> Result<i64, JobFault>
        ensures ok { OnOk result (spec.signed_fault self.now entry (table_view table.now) ≡ None) }
        ensures value { IfOk result (λ n. n ≡ spec.signed_of self.now (table_view table.now)) }
        ensures range { IfOk result (λ n. is_whole_near self.now.most n ≡ true) }
        ensures err { IfErr result (λ e. spec.signed_fault self.now entry (table_view table.now) ≡ Some e) }
    {
        let key = self.key;
        let Some(value) = value_at(table, key) else {
            return Ok(0);
        };
        let Some(number) = value.as_integer() else {
            return Err(JobFault::Kind { key, entry });
        };
        if is_near(number, self.most) {
            Ok(number)
        } else {
            Err(JobFault::Range { key, entry })
        }
    }
}

fn is_near(number: i64, most: u64) -> bool
    ensures { result ≡ is_whole_near most number }
{
    number.unsigned_abs() <= most
}

/// The number, where it is in the range.
pub(crate) fn number_within(number: i64, least: u64, most: u64) -> Option<u64>
    ensures { result ≡ (if is_whole_from least most number then Some (nat_abs number) else None) }
{
    match u64::try_from(number) {
        Ok(size) if least <= size && size <= most => Some(size),
        _ => None,
    }
}

impl Key {
    /// The name that a table has under the key.
    pub(crate) fn read_name(self, table: &Table, entry: u32) -> Result<Name, JobFault>
        ensures ok { OnOk result (spec.name_fault self entry (table_view table.now) ≡ None) }
        ensures value { IfOk result (λ name. name ≡ spec.name_of self (table_view table.now)) }
        ensures err { IfErr result (λ e. spec.name_fault self entry (table_view table.now) ≡ Some e) }
    {
        let key = self;
        match value_at(table, key) {
            None => Err(JobFault::Missing { key, entry }),
            Some(value) => match value.as_str() {
                None => Err(JobFault::Kind { key, entry }),
                Some(text) => Name::of(text).ok_or(JobFault::Name { key, entry }),
            },
        }
    }
}
