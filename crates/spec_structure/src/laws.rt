// Laws of how modules import and include one another, which hold of the definitions alone.
ghost use Rattle.std.specs.Prelude.{◌≡◌, ℕ, List};
ghost use Rattle.spec_structure.specs.Modules.{Modules, AreInReadingOrder};

/// The modules that a module leads to are read in one order.
pub fn modules_have_one_reading_order()
    ensures { (modules : Modules) (main : List ℕ) (names others : List (List ℕ)) → AreInReadingOrder modules main names → AreInReadingOrder modules main others → names ≡ others }
{}
