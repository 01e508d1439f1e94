// The classes of one's own in their order.
ghost use Rattle.std.specs.Prelude.{◌≡◌, length, map as list_map, IfOk, OnOk};
ghost use Rattle.s80_class.specs.Classes.{Classes, lineage};
ghost use Rattle.s80_fileout.specs.Order.{own_in_order, own_names, ranked_class};

use s80_base::{OutOfMemory, Text};
use s80_class::ClassTable;
use s80_kernel::is_kernel_class;
use std::alloc::Global;

/// A class of one's own, and how many classes stand above it, itself among them.
#[derive(Debug, Drop)]
pub struct RankedClass {
    pub depth: usize,
    pub class_name: Text,
}

/// The classes that are none of the kernel's, each behind its superclass: by their depths, and within these in byte order of their names.
pub(crate) fn own_classes(
    alloc: Global,
    classes: &ClassTable,
) -> Result<Vec<RankedClass>, OutOfMemory>
    ensures { IfOk result (λ own. list_map (λ class. class.class_name) own.items ≡ own_names classes.now.classes) }
{
    let mut own = named_classes(alloc, classes)?;
    sort_by_depth(&mut own)?;
    Ok(own)
}

/// Puts classes in byte order of their names, which are none of the kernel's, in the order of their depths: each behind its superclass.
pub fn sort_by_depth(own: &mut Vec<RankedClass>) -> Result<(), OutOfMemory>
    ensures { (classes : Classes) → own.old.items ≡ own_in_order classes
        → OnOk result (list_map (λ class. class.class_name) own.new.items ≡ own_names classes) }
{
    own.sort_by_key(|class| class.depth)?;
    Ok(())
}

/// The same in byte order of their names.
fn named_classes(alloc: Global, classes: &ClassTable) -> Result<Vec<RankedClass>, OutOfMemory>
    ensures { IfOk result (λ own. own.items ≡ own_in_order classes.now.classes) }
{
    let names = classes.names_sorted(alloc)?;
    let mut own = Vec::new(alloc);
    for i in 0..names.count() {
        let class_name = names.at(i);
        if !is_kernel_class(class_name.bytes()) {
            own.push(ranked_class(alloc, classes, class_name)?)?;
        }
    }
    Ok(own)
}

fn ranked_class(
    alloc: Global,
    classes: &ClassTable,
    class_name: &Text,
) -> Result<RankedClass, OutOfMemory>
    ensures { IfOk result (λ class. class ≡ ranked_class classes.now.classes class_name.now) }
{
    Ok(RankedClass {
        depth: depth(classes, class_name),
        class_name: class_name.copy(alloc)?,
    })
}

/// How many classes stand above a class, itself among them.
fn depth(classes: &ClassTable, class_name: &Text) -> usize
    ensures { result ≡ length (lineage classes.now.classes class_name.now) }
{
    let mut next = classes.find(class_name);
    let count = classes.count();
    for depth in 0..count {
        let Some(number) = next else {
            return depth;
        };
        next = classes.at(number).superclass;
    }
    count
}
