// The class records of a tree, and the numbers of its classes, from its class labels.
ghost use Rattle.std.specs.Prelude.{◌≡◌, ◌++◌, ◌+◌, ◌*◌, ◌≤◌, ◌<◌, length, take, drop};
ghost use Rattle.tree.specs.Layout.{class_record_size};
ghost use Rattle.tree.specs.Limits.{most_labels};
ghost use Rattle.classes.specs.ClassRecord.{class_record, encode_classes};
ghost use Rattle.classes.specs.ClassAt.{class_at, ClassHere};
ghost use Rattle.classes.specs.Members.{Members, value_count};
ghost use Rattle.checker.specs.Relabelled.{class_labels, relabelled, labelled_classes};
ghost use Rattle.checker.specs.ClassStore.{LabelsPlaced};

use classes::class::class_members;
use classes::members::{VALUE_COUNT, write_class_record};
use tree::layout::{CLASS_LABEL, CLASS_RECORD_SIZE, class_label};

// Tells the values of the class written at a place.
fn class_values(expr: &[u8], at: usize, members: &mut [u8])
    requires { ClassHere expr.now at × (length members.old ≡ value_count) }
    ensures { Members (class_at expr.now at) members.new }
{
    if expr[at] == b'.' {
        members.fill(1);
        members[usize::from(b'\n')] = 0;
    } else {
        class_members(expr, at, members);
    }
}

// Writes the record of the class at a place, as record k.
fn store_class(expr: &[u8], at: usize, classes: &mut [u8], k: usize)
    requires here { ClassHere expr.now at }
    requires room { class_record_size * k + class_record_size ≤ length classes.old }
    ensures { classes.new ≡ take (class_record_size * k) classes.old
        ++ (class_record (class_at expr.now at)
        ++ drop class_record_size (drop (class_record_size * k) classes.old)) }
{
    let mut members = [0u8; VALUE_COUNT];
    class_values(expr, at, &mut members);
    let begin = CLASS_RECORD_SIZE * k;
    write_class_record(&members, &mut classes[begin..begin + CLASS_RECORD_SIZE]);
}

// Writes the class records, in the order of the class labels.
pub fn store_classes(expr: &[u8], labels: &[u16], classes: &mut [u8])
    requires placed { LabelsPlaced expr.now labels.now }
    requires room { class_record_size * class_labels labels.now ≤ length classes.old }
    requires few { length labels.now ≤ most_labels }
    ensures { classes.new ≡ encode_classes (labelled_classes expr.now labels.now)
        ++ drop (class_record_size * class_labels labels.now) classes.old }
{
    let mut k = 0;
    for label in labels {
        if *label % 8 == CLASS_LABEL {
            store_class(expr, usize::from(*label / 8), classes, k);
            k += 1;
        }
    }
}

// Puts the number of its class into each class label.
pub fn number_classes(labels: &mut [u16])
    requires { length labels.old ≤ most_labels }
    ensures { labels.new ≡ relabelled labels.old 0 }
{
    let mut k = 0;
    for label in labels.iter_mut() {
        if *label % 8 == CLASS_LABEL {
            *label = class_label(k);
            k += 1;
        }
    }
}
