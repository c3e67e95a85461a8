// Arrays of whole numbers, of names and of tables.
ghost use Rattle.std.specs.Prelude.{◌≡◌, ◌⊎◌, ◌≤◌, true, None, Some, length, map, pos, OnOk, IfOk, IfErr};
ghost use Rattle.std.specs.List.{list_all};
ghost use Rattle.toml.specs.View.{table_view, view};
ghost use Rattle.job_reader.specs.Limits.{is_from};
ghost use Rattle.job_reader.specs.Names.{is_name};
ghost use Rattle.job_reader.specs.Values as spec;

use crate::name::is_name;
use crate::rule::Wholes;
use crate::value::{number_within, value_at};
use crate::{JobFault, Key, Name};
use std::alloc::{AllocError, Global};
use toml::{Table, Value};

/// What the elements of an array are.
#[derive(Clone, Copy, Debug, PartialEq, Eq)]
pub(crate) enum Kind {
    Whole,
    Text,
    Table,
}

impl Kind {
    fn is_of(self, value: &Value) -> bool
        ensures { result ≡ spec.is_of self (view value.now) }
    {
        match self {
            Kind::Whole => value.is_integer(),
            Kind::Text => value.is_str(),
            Kind::Table => value.is_table(),
        }
    }

    fn are_of(self, values: &[Value]) -> bool
        ensures { result ≡ list_all (λ v. spec.is_of self (view v)) values.now }
    {
        values.iter().all(|value| self.is_of(value))
    }

    /// The elements of an array of this kind, at most `count` of them.
    pub(crate) fn elements(
        self,
        key: Key,
        entry: u32,
        count: usize,
        value: &Value,
    ) -> Result<&[Value], JobFault>
        ensures ok { OnOk result (spec.array_fault self key count entry (view value.now) ≡ None) }
        ensures same { IfOk result (λ vs. map view vs.now ≡ spec.elements_of (view value.now)) }
        ensures all { IfOk result (λ vs. list_all (λ v. spec.is_of self (view v)) vs.now ≡ true) }
        ensures few { IfOk result (λ vs. length vs.now ≤ count) }
        ensures err { IfErr result (λ e. spec.array_fault self key count entry (view value.now) ≡ Some e) }
    {
        let Some(array) = value.as_array() else {
            return Err(JobFault::Kind { key, entry });
        };
        let values = array.as_slice();
        if !self.are_of(values) {
            return Err(JobFault::Kind { key, entry });
        }
        if values.len() > count {
            return Err(JobFault::Many { key, entry });
        }
        Ok(values)
    }
}

impl Wholes {
    /// The numbers that a table has under the key.
    pub(crate) fn read(
        &self,
        alloc: Global,
        table: &Table,
        entry: u32,
    ) -> Result<Vec<u64>, JobFault>
        ensures ok { OnOk result (spec.wholes_fault self.now entry (table_view table.now) ≡ None) }
        ensures value { IfOk result (λ v. v.items ≡ spec.wholes_of self.now (table_view table.now)) }
        ensures range { IfOk result (λ v. list_all (is_from self.now.least self.now.most) v.items ≡ true) }
        ensures few { IfOk result (λ v. length v.items ≤ self.now.count) }
        ensures err { IfErr result (λ e. (e ≡ JobFault.Memory) ⊎ (spec.wholes_fault self.now entry (table_view table.now) ≡ Some e)) }
    {
        let key = self.key;
        let Some(value) = value_at(table, key) else {
            return if self.needed {
                Err(JobFault::Missing { key, entry })
            } else {
                Ok(Vec::new(alloc))
            };
        };
        let values = Kind::Whole.elements(key, entry, self.count, value)?;
        if !are_within(values, self.least, self.most) {
            return Err(JobFault::Range { key, entry });
        }
        Ok(numbers_in(alloc, values)?)
    }
}

fn are_within(values: &[Value], least: u64, most: u64) -> bool
    ensures { result ≡ list_all (λ v. spec.is_number_within least most (view v)) values.now }
{
    values.iter().all(|value| is_within(value, least, most))
}

fn is_within(value: &Value, least: u64, most: u64) -> bool
    ensures { result ≡ spec.is_number_within least most (view value.now) }
{
    match value.as_integer() {
        Some(number) => number_within(number, least, most).is_some(),
        None => false,
    }
}

fn numbers_in(alloc: Global, values: &[Value]) -> Result<Vec<u64>, AllocError>
    ensures { IfOk result (λ v. v.items ≡ map (λ v. spec.number_in (view v)) values.now) }
{
    let mut numbers = Vec::new(alloc);
    for value in values {
        numbers.push(number_in(value))?;
    }
    Ok(numbers)
}

#[tactic(auto, unfolding(crate::specs::Values::number_in))]
fn number_in(value: &Value) -> u64
    ensures { result ≡ spec.number_in (view value.now) }
{
    match value.as_integer() {
        Some(number) => number.unsigned_abs(),
        None => 0,
    }
}

/// Numbers as lengths in mm.
pub(crate) fn lengths_of(alloc: Global, numbers: &[u64]) -> Result<Vec<i64>, AllocError>
    requires { list_all (is_from 0 524287) numbers.now ≡ true }
    ensures { IfOk result (λ v. v.items ≡ map pos numbers.now) }
{
    let mut lengths = Vec::new(alloc);
    for number in numbers {
        lengths.push(*number as i64)?;
    }
    Ok(lengths)
}

/// Numbers as drafts in mm.
pub(crate) fn drafts_of(alloc: Global, numbers: &[u64]) -> Result<Vec<u32>, AllocError>
    requires { list_all (is_from 0 131071) numbers.now ≡ true }
    ensures { IfOk result (λ v. v.items ≡ numbers.now) }
{
    let mut drafts = Vec::new(alloc);
    for number in numbers {
        drafts.push(*number as u32)?;
    }
    Ok(drafts)
}

impl Key {
    /// The names that a table has under the key: an array of at most `count`.
    pub(crate) fn read_names(
        self,
        alloc: Global,
        table: &Table,
        entry: u32,
        count: usize,
    ) -> Result<Vec<Name>, JobFault>
        ensures ok { OnOk result (spec.names_fault self count entry (table_view table.now) ≡ None) }
        ensures value { IfOk result (λ v. v.items ≡ spec.names_of self (table_view table.now)) }
        ensures few { IfOk result (λ v. length v.items ≤ count) }
        ensures err { IfErr result (λ e. (e ≡ JobFault.Memory) ⊎ (spec.names_fault self count entry (table_view table.now) ≡ Some e)) }
    {
        let key = self;
        let Some(value) = value_at(table, key) else {
            return Err(JobFault::Missing { key, entry });
        };
        let values = Kind::Text.elements(key, entry, count, value)?;
        if !are_names(values) {
            return Err(JobFault::Name { key, entry });
        }
        Ok(names_in(alloc, values)?)
    }
}

fn are_names(values: &[Value]) -> bool
    ensures { result ≡ list_all (λ v. is_name (spec.text_in (view v))) values.now }
{
    values.iter().all(|value| is_name(text_in(value)))
}

fn names_in(alloc: Global, values: &[Value]) -> Result<Vec<Name>, AllocError>
    requires { list_all (λ v. is_name (spec.text_in (view v))) values.now ≡ true }
    ensures { IfOk result (λ v. v.items ≡ map (λ v. spec.text_in (view v)) values.now) }
{
    let mut names = Vec::new(alloc);
    for value in values {
        match Name::of(text_in(value)) {
            Some(name) => names.push(name)?,
            None => unreachable!(),
        }
    }
    Ok(names)
}

// The string, or nothing in its place.
#[tactic(auto, unfolding(crate::specs::Values::text_in))]
fn text_in(value: &Value) -> &str
    ensures { result.now ≡ spec.text_in (view value.now) }
{
    value.as_str().unwrap_or("")
}
