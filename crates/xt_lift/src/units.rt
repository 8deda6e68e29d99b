// What is left of units whose xsl:for-each elements are lifted, and the templates of these.
ghost use Rattle.std.specs.Prelude.{◌≡◌, ◌++◌, [], IfOk, OnOk, map};
ghost use Rattle.spec_stylesheet.specs.Instruction.{bindings};
ghost use Rattle.spec_items.specs.Lifted as lifted;
ghost use Rattle.xt_lift.specs.Left as spec;
ghost use Rattle.xt_syntax.specs.InstrView.{binding_of};
ghost use Rattle.xt_syntax.specs.SheetView.{attribute_set_of, declared_of, global_of, key_of, template_of, unit_of};

use crate::copies::{Copied, copy_expr, copy_names, copy_site};
use crate::left::{left_binding, left_content};
use crate::scope::bring_name;
use std::alloc::Global;
use std::rc::Rc;
use xt_names::{Expanded, copy_name, copy_name_if};
use xt_syntax::{AttributeSet, Binding, Declared, GlobalBinding, Key, Template, Unit};
use xt_text::Memory;

/// What is left of a unit. The templates of the contents in it are added at the end of the items.
pub(crate) fn left_unit(alloc: Global, unit: &Unit, items: &mut Vec<Unit>) -> Result<Unit, Memory>
    ensures left { IfOk result (λ u. unit_of u ≡ lifted.left_unit (unit_of unit.now)) }
    ensures items { OnOk result (map unit_of items.new.items ≡ map unit_of items.old.items ++ lifted.items_of (unit_of unit.now)) }
{
    let site = copy_site(alloc, &unit.site)?;
    let declared = left_declared(alloc, unit.precedence, &unit.declared, items)?;
    Ok(Unit {
        site,
        precedence: unit.precedence,
        declared,
    })
}

fn left_declared(
    alloc: Global,
    precedence: u64,
    declared: &Declared,
    items: &mut Vec<Unit>,
) -> Result<Declared, Memory>
    ensures left { IfOk result (λ d. declared_of d ≡ lifted.left_declared (declared_of declared.now)) }
    ensures items { OnOk result (map unit_of items.new.items ≡ map unit_of items.old.items ++ lifted.items_declared precedence (declared_of declared.now)) }
{
    match declared {
        Declared::Template(template) => {
            let left = left_template(alloc, precedence, template, items)?;
            Ok(Declared::Template(left))
        }
        Declared::Global(global) => {
            let left = left_global(alloc, precedence, global, items)?;
            Ok(Declared::Global(left))
        }
        Declared::AttributeSet(set) => {
            let left = left_set(alloc, precedence, set, items)?;
            Ok(Declared::AttributeSet(left))
        }
        Declared::Key(key) => Ok(Declared::Key(copy_key(alloc, key)?)),
    }
}

fn left_template(
    alloc: Global,
    precedence: u64,
    template: &Template,
    items: &mut Vec<Unit>,
) -> Result<Template, Memory>
    ensures left { IfOk result (λ t. template_of t ≡ spec.left_template (template_of template.now)) }
    ensures items { OnOk result (map unit_of items.new.items ≡ map unit_of items.old.items ++ spec.items_in_template precedence (template_of template.now)) }
{
    let mut scope = Vec::new(alloc);
    let taken = template.parameters.as_slice();
    let parameters = left_taken(alloc, precedence, &mut scope, taken, items)?;
    let content = left_content(
        alloc,
        precedence,
        scope.as_slice(),
        &template.content,
        items,
    )?;
    let name = copy_name_if(alloc, &template.name)?;
    Ok(Template {
        name,
        parameters: Rc::new(alloc, parameters)?,
        content,
    })
}

// What is left of parameters, each of which is in scope for those after it.
fn left_taken(
    alloc: Global,
    precedence: u64,
    scope: &mut Vec<Expanded>,
    list: &[Binding],
    items: &mut Vec<Unit>,
) -> Result<Vec<Binding>, Memory>
    ensures left { IfOk result (λ l. bindings (map binding_of l.items) ≡ lifted.left_taken scope.old.items (bindings (map binding_of list.now))) }
    ensures scope { OnOk result (scope.new.items ≡ lifted.scope_of scope.old.items (bindings (map binding_of list.now))) }
    ensures items { OnOk result (map unit_of items.new.items ≡ map unit_of items.old.items ++ lifted.items_in_taken precedence scope.old.items (bindings (map binding_of list.now))) }
{
    let mut left = Vec::new(alloc);
    for binding in list {
        left.push(left_binding(alloc, precedence, scope.as_slice(), binding, items)?)?;
        bring_name(alloc, &binding.name, scope)?;
    }
    Ok(left)
}

fn left_global(
    alloc: Global,
    precedence: u64,
    global: &GlobalBinding,
    items: &mut Vec<Unit>,
) -> Result<GlobalBinding, Memory>
    ensures left { IfOk result (λ g. global_of g ≡ spec.left_global (global_of global.now)) }
    ensures items { OnOk result (map unit_of items.new.items ≡ map unit_of items.old.items ++ lifted.items_in precedence [] (global_of global.now).binding.content) }
{
    let scope = Vec::new(alloc);
    let binding = left_binding(alloc, precedence, scope.as_slice(), &global.binding, items)?;
    Ok(GlobalBinding {
        is_parameter: global.is_parameter,
        binding,
    })
}

fn left_set(
    alloc: Global,
    precedence: u64,
    set: &AttributeSet,
    items: &mut Vec<Unit>,
) -> Result<AttributeSet, Memory>
    ensures left { IfOk result (λ s. attribute_set_of s ≡ spec.left_set (attribute_set_of set.now)) }
    ensures items { OnOk result (map unit_of items.new.items ≡ map unit_of items.old.items ++ lifted.items_in precedence [] (attribute_set_of set.now).attributes) }
{
    let scope = Vec::new(alloc);
    let attributes = left_content(alloc, precedence, scope.as_slice(), &set.attributes, items)?;
    let sets = copy_names(alloc, set.sets.as_slice())?;
    let name = copy_name(alloc, &set.name)?;
    Ok(AttributeSet {
        name,
        sets,
        attributes,
    })
}

fn copy_key(alloc: Global, key: &Key) -> Result<Key, Memory>
    ensures { IfOk result (λ k. key_of k ≡ key_of key.now) }
{
    let pattern = key.pattern.copied(alloc)?;
    let name = copy_name(alloc, &key.name)?;
    let value = copy_expr(alloc, &key.value)?;
    Ok(Key {
        name,
        pattern,
        value,
    })
}
