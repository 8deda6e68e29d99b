// Values of parameters.
ghost use Rattle.std.specs.Prelude.{◌≡◌, ◌+◌, None, IfOk, IsSome, OnErr, OnOk, bytes_eq, drop, string_bytes};
ghost use Rattle.std.specs.Map.{lookup, remove_entry};
ghost use Rattle.std.specs.Option.{option_copied};
ghost use Rattle.std.specs.Str.{chars};
ghost use Rattle.std.specs.String.{string_eq};
ghost use Rattle.indexmap.specs.IndexMap.{insert_entry};
ghost use Rattle.xt_world.specs.ParameterView.{HasRoomForOne, IsBefore, parameters_of, values_in, with_value};

use indexmap::IndexMap;
use std::alloc::Global;
use xt_text::{Memory, Text};

/// The values that parameters at the top of a stylesheet are given from outside, each by its name.
#[derive(Drop)]
pub struct Parameters {
    values: IndexMap<String, Text>,
}

/// What a parameter was before it was given a value, so that this can be taken back.
#[derive(Drop)]
pub struct Before {
    name: String,
    value: Option<Text>,
}

impl Parameters {
    /// None is given. Takes no memory.
    pub fn new(alloc: Global) -> Parameters
        ensures { parameters_of result ≡ λ name. None }
    {
        Parameters {
            values: IndexMap::new(alloc),
        }
    }

    /// The same values, in memory of their own. They are put in from the last on: what is put in later is found in place
    /// of what has its name, so each is found as before, with nothing known of their names.
    pub fn copy(&self, alloc: Global) -> Result<Parameters, Memory>
        ensures { IfOk result (λ copy. parameters_of copy ≡ parameters_of self.now) }
    {
        let mut copy = Parameters::new(alloc);
        for index in (0..self.values.len()).rev() {
            self.copy_at(alloc, index, &mut copy)?;
        }
        Ok(copy)
    }

    // Copies the value at this index.
    fn copy_at(&self, alloc: Global, index: usize, copy: &mut Parameters) -> Result<(), Memory>
        ensures { OnOk result (parameters_of copy.old ≡ values_in (drop (index + 1) self.now.values.entries)
            → parameters_of copy.new ≡ values_in (drop index self.now.values.entries)) }
    {
        match self.values.get_index(index) {
            None => Ok(()),
            Some((name, value)) => copy.put_copy(alloc, name, value),
        }
    }

    fn put_copy(&mut self, alloc: Global, name: &String, value: &Text) -> Result<(), Memory>
        ensures { OnOk result (parameters_of self.new ≡ with_value (chars (string_bytes name.now)) value.now (parameters_of self.old)) }
    {
        let key = String::from_str(alloc, name.as_str())?;
        let value = value.copy(alloc)?;
        self.values.insert(key, value)?;
        Ok(())
    }

    /// The value of the parameter of this name, where one is given. Takes no memory.
    pub fn get(&self, name: &Text) -> Option<&Text>
        ensures { option_copied result ≡ parameters_of self.now name.now }
    {
        self.find(name.as_str())
    }

    fn find(&self, name: &str) -> Option<&Text>
        ensures { option_copied result ≡ parameters_of self.now (chars name.now) }
    {
        self.values.get(name)
    }

    /// Gives the parameter of this name a copy of this value, in place of the one before, until that is taken back.
    pub fn give(&mut self, alloc: Global, name: &Text, value: &Text) -> Result<Before, Memory>
        ensures given { OnOk result (parameters_of self.new ≡ with_value name.now value.now (parameters_of self.old)) }
        ensures before { IfOk result (λ before. IsBefore before self.old self.new) }
        ensures err { OnErr result (parameters_of self.new ≡ parameters_of self.old) }
    {
        let key = String::from_str(alloc, name.as_str())?;
        let again = String::from_str(alloc, name.as_str())?;
        let value = value.copy(alloc)?;
        let before = self.values.insert(key, value)?;
        Ok(Before {
            name: again,
            value: before,
        })
    }

    /// Takes back what was given last. Takes no memory.
    pub fn take_back(&mut self, before: Before)
        ensures { (older : Parameters) → IsBefore before older self.old → parameters_of self.new ≡ parameters_of older }
    {
        let Before { name, value } = before;
        match value {
            None => self.remove(name.as_str()),
            Some(value) => self.put_back(name, value),
        }
    }

    fn remove(&mut self, name: &str)
        ensures { self.new.values.entries ≡ remove_entry (λ key. bytes_eq name.now (string_bytes key)) self.old.values.entries }
    {
        let _ = self.values.shift_remove(name);
    }

    // It takes no memory where there is a value of this name.
    fn put_back(&mut self, name: String, value: Text)
        ensures { IsSome (lookup (string_eq name) self.old.values.entries)
            → self.new.values.entries ≡ insert_entry string_eq self.old.values.entries name value }
    {
        let _ = self.values.insert(name, value);
    }

    /// Makes room for one value more.
    pub fn reserve(&mut self) -> Result<(), Memory>
        ensures room { OnOk result (HasRoomForOne self.new) }
        ensures same { parameters_of self.new ≡ parameters_of self.old }
    {
        self.values.reserve(1)?;
        Ok(())
    }

    /// Gives this parameter this value, in place of the one before. There is room, so that no memory is taken.
    pub fn keep(&mut self, name: String, value: Text)
        requires { HasRoomForOne self.old }
        ensures { parameters_of self.new ≡ with_value (chars (string_bytes name)) value (parameters_of self.old) }
    {
        let _ = self.values.insert(name, value);
    }
}
