//! Calls: their targets, and the classes of arguments and results.

ghost use Rattle.std.specs.Prelude.{◌≡◌, option_copied};
ghost use Rattle.il_code.specs.Items.{item_named};
ghost use Rattle.il_code.specs.Rules.{each_has_class, each_has_class_of, has_classes, has_classes_of, takes_result, is_runtime_call, is_call_right};

use super::names::Named;
use super::temps::same_class;
use crate::types::{IlArg, IlItem, IlParam};
use hx_base::Class;
use hx_runtime::RuntimeFunction;

/// Whether a call is of a function of the module or of the runtime, with its classes. The first item of the target's name decides.
pub fn is_call_right(items: &[IlItem], to: &Option<IlParam>, target: &[u8], args: &[IlArg]) -> bool
    ensures { result ≡ is_call_right items.now to.now target.now args.now }
{
    match item_named(items, target) {
        Some(IlItem::Function { class, params, .. }) => {
            takes_result(to, *class) && has_classes_of(args, params.as_slice())
        }
        Some(IlItem::Data { .. }) | None => is_runtime_call(to, target, args),
    }
}

/// The first item with a name.
fn item_named<'a>(items: &'a [IlItem], name: &[u8]) -> Option<&'a IlItem>
    ensures { option_copied result ≡ item_named items.now name.now }
{
    items.iter().find(|i| i.name() == name)
}

fn has_classes(args: &[IlArg], wanted: &[Class]) -> bool
    ensures { result ≡ has_classes args.now wanted.now }
{
    args.len() == wanted.len() && each_has_class(args, wanted)
}

fn each_has_class(args: &[IlArg], wanted: &[Class]) -> bool
    ensures { result ≡ each_has_class args.now wanted.now }
{
    args.iter()
        .zip(wanted)
        .all(|(a, c)| same_class(a.class, *c))
}

fn has_classes_of(args: &[IlArg], params: &[IlParam]) -> bool
    ensures { result ≡ has_classes_of args.now params.now }
{
    args.len() == params.len() && each_has_class_of(args, params)
}

fn each_has_class_of(args: &[IlArg], params: &[IlParam]) -> bool
    ensures { result ≡ each_has_class_of args.now params.now }
{
    args.iter()
        .zip(params)
        .all(|(a, p)| same_class(a.class, p.class))
}

fn takes_result(to: &Option<IlParam>, given: Option<Class>) -> bool
    ensures { result ≡ takes_result to.now given }
{
    match (to, given) {
        (None, _) => true,
        (Some(_), None) => false,
        (Some(p), Some(c)) => same_class(p.class, c),
    }
}

#[tactic(auto, unfolding(crate::specs::Rules::is_runtime_call))]
fn is_runtime_call(to: &Option<IlParam>, target: &[u8], args: &[IlArg]) -> bool
    ensures { result ≡ is_runtime_call to.now target.now args.now }
{
    match RuntimeFunction::named(target) {
        None => false,
        Some(f) => takes_result(to, f.result()) && has_classes(args, f.params()),
    }
}
