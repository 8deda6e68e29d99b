// The attributes of an element with their values.
ghost use Rattle.std.specs.Prelude.{◌≡◌, ◌++◌, OnOk, bytes_eq, false, ℕ, List};
ghost use Rattle.std.specs.List.{flat_map, position};
ghost use Rattle.std.specs.Option.{option_map};
ghost use Rattle.std.specs.Str.{chars};
ghost use Rattle.spec_compile.specs.Content.{variables_by};
ghost use Rattle.spec_compile.specs.Value as spec;
ghost use Rattle.xt_attributes.specs.View.{entries_in, value_in};

use crate::value::Value;
use crate::variables::add_variables;
use std::alloc::Global;
use xt_names::Expanded;
use xt_text::{Memory, Text};

/// An attribute by its local name, with its value.
#[derive(Drop)]
pub struct Entry {
    pub name: Text,
    pub value: Value,
}

/// The attributes of an element with their values, in their order.
#[derive(Drop)]
pub struct Entries {
    pub list: Vec<Entry>,
}

impl Entries {
    /// What the attribute of this name says. None exactly where there is none. Takes no memory.
    pub fn get(&self, name: &str) -> Option<&Value>
        ensures { option_map (λ v. value_in v.now) result ≡ spec.value_at (chars name.now) (entries_in self.now) }
    {
        for entry in self.list.as_slice() {
            if entry.name.is(name) {
                return Some(&entry.value);
            }
        }
        None
    }

    fn position(&self, name: &str) -> Option<usize>
        ensures { result ≡ position (λ e. bytes_eq e.name (chars name.now)) self.now.list.items }
    {
        self.list.iter().position(|entry| entry.name.is(name))
    }

    /// Takes what the attribute of this name says out of these. None exactly where there is none. Takes no memory.
    pub fn take(&mut self, name: &str) -> Option<Value>
        ensures taken { option_map value_in result ≡ spec.value_at (chars name.now) (entries_in self.old) }
        ensures others { (other : List ℕ) → bytes_eq (chars name.now) other ≡ false → spec.value_at other (entries_in self.new) ≡ spec.value_at other (entries_in self.old) }
    {
        match self.position(name) {
            None => None,
            Some(index) => {
                let entry = self.list.remove(index);
                Some(entry.value)
            }
        }
    }

    /// Adds the variables that stand in their values. Want of memory alone is an error, after which some are added.
    pub fn add_variables(&self, alloc: Global, into: &mut Vec<Expanded>) -> Result<(), Memory>
        ensures { OnOk result (into.new.items ≡ into.old.items ++ flat_map (λ e. variables_by e.value) (entries_in self.now)) }
    {
        for entry in self.list.as_slice() {
            add_variables(alloc, &entry.value, into)?;
        }
        Ok(())
    }
}
