//! Which of equal names is the first.

ghost use Rattle.std.specs.Prelude.{◌≡◌, ◌<◌, IfSome, length, map};
ghost use Rattle.syntax.specs.Views.{class_name_of};
ghost use Rattle.explanation_names.specs.NameSpaces.{Bears, ListsAgain, Repeats, ident_bears};
ghost use Rattle.explanation_names.specs.Working.Viewed.{FoundClass, FoundName};
ghost use Rattle.explanation_names.specs.Working.Values.{idents};
ghost use Rattle.resolution.specs.Scopes.{place_of, same_class};

use syntax::tree::{ClassName, Name};

/// The index of the first of the names that equals this text.
fn first_place(names: &[&Name], text: &str) -> Option<usize>
    ensures place { result ≡ place_of ident_bears (idents names.now) text.now }
    ensures within { IfSome result (λ i. i < length names.now) }
{
    for (i, name) in names.iter().enumerate() {
        if text == name.text.as_str() {
            return Some(i);
        }
    }
    None
}

/// If one of the names starts at `at` and some before it is equal, the first of these.
pub fn first_of_same<'a>(names: &[&'a Name], at: usize) -> Option<&'a Name>
    ensures { FoundName (Repeats (idents names.now) at) result }
{
    for (j, name) in names.iter().enumerate() {
        if name.start as usize == at {
            if let Some(i) = first_place(&names[..j], name.text.as_str()) {
                return Some(names[i]);
            }
        }
    }
    None
}

/// If one of the names starts at `at` and some of `others` is equal, the first of these.
pub fn first_of_others<'a>(others: &[&'a Name], names: &[&Name], at: usize) -> Option<&'a Name>
    ensures { FoundName (Bears (idents others.now) (idents names.now) at) result }
{
    for name in names {
        if name.start as usize == at {
            if let Some(i) = first_place(others, name.text.as_str()) {
                return Some(others[i]);
            }
        }
    }
    None
}

/// Whether both names of lock classes are the same.
fn is_same_class(a: &ClassName, b: &ClassName) -> bool
    ensures { result ≡ same_class (class_name_of a.now) (class_name_of b.now) }
{
    a.structure.text.as_str() == b.structure.text.as_str()
        && a.lock.text.as_str() == b.lock.text.as_str()
}

/// The index of the first of the lock classes that equals `class`.
fn class_place(classes: &[ClassName], class: &ClassName) -> Option<usize>
    ensures place { result ≡ place_of same_class (map class_name_of classes.now) (class_name_of class.now) }
    ensures within { IfSome result (λ i. i < length classes.now) }
{
    for (i, other) in classes.iter().enumerate() {
        if is_same_class(other, class) {
            return Some(i);
        }
    }
    None
}

/// If one of the lock classes starts at `at` and some before it is equal, the first of these.
pub fn first_of_classes(classes: &[ClassName], at: usize) -> Option<&ClassName>
    ensures { FoundClass (ListsAgain (map class_name_of classes.now) at) result }
{
    for (j, class) in classes.iter().enumerate() {
        if class.structure.start as usize == at {
            if let Some(i) = class_place(&classes[..j], class) {
                return Some(&classes[i]);
            }
        }
    }
    None
}
