//! A list whose copies share it.
ghost use Rattle.std.specs.Prelude.{◌≡◌, ◌<◌, ◌++◌, [], ◌∷◌, length, map, take, slice_get, slice_set, IfOk, OnOk};
ghost use Rattle.std.specs.Arc.{arc_value};
ghost use Rattle.std.specs.Option.{option_copied};

use crate::NoMemory;
use std::alloc::Global;
use std::marker::Model;
use std::sync::Arc;

/// A list that never changes. A copy shares all of it, and a changed one its items.
#[derive(Drop)]
pub struct SharedList<T> {
    items: Arc<Vec<Arc<T>>>,
}

impl<T> Model for SharedList<T> {
    ghost use Rattle.std.specs.Prelude.{List, map};
    ghost use Rattle.std.specs.Arc.{arc_value};

    ghost Value = { List T };

    ghost view = { λ s. map arc_value (arc_value s.items).items };
}

/// Puts the items at the end, shared.
pub(crate) fn share<T: Drop>(out: &mut Vec<Arc<T>>, items: &[Arc<T>]) -> Result<(), NoMemory>
    ensures { OnOk result (map arc_value out.new.items ≡ map arc_value out.old.items ++ map arc_value items.now) }
{
    for item in items {
        out.push(Arc::try_clone(item)?)?;
    }
    Ok(())
}

impl<T: Drop> SharedList<T> {
    /// The list of these items.
    pub fn of(alloc: Global, items: Vec<Arc<T>>) -> Result<SharedList<T>, NoMemory>
        ensures { IfOk result (λ list. list ≡ map arc_value items.items) }
    {
        Ok(SharedList {
            items: Arc::new(alloc, items)?,
        })
    }

    /// The list without an item.
    pub fn empty(alloc: Global) -> Result<SharedList<T>, NoMemory>
        ensures { IfOk result (λ list. list ≡ []) }
    {
        SharedList::of(alloc, Vec::new(alloc))
    }

    /// The same list, shared.
    pub fn copy(&self) -> Result<SharedList<T>, NoMemory>
        ensures { IfOk result (λ list. list ≡ self.now) }
    {
        Ok(SharedList {
            items: Arc::try_clone(&self.items)?,
        })
    }

    /// The items, in order.
    pub fn as_slice(&self) -> &[Arc<T>]
        ensures { map arc_value result.now ≡ self.now }
    {
        self.items.as_ref()
    }

    /// How many items it has.
    pub fn len(&self) -> usize
        ensures { result ≡ length self.now }
    {
        self.as_slice().len()
    }

    /// The item at an index; none exactly from the length on.
    pub fn get(&self, index: usize) -> Option<&T>
        ensures { option_copied result ≡ slice_get self.now index }
    {
        match self.as_slice().get(index) {
            None => None,
            Some(item) => Some(item.as_ref()),
        }
    }

    /// The list with one item more, before all others.
    pub fn with_front(&self, alloc: Global, item: Arc<T>) -> Result<SharedList<T>, NoMemory>
        ensures { IfOk result (λ list. list ≡ arc_value item ∷ self.now) }
    {
        let mut items = Vec::new(alloc);
        items.push(item)?;
        share(&mut items, self.as_slice())?;
        SharedList::of(alloc, items)
    }

    /// The list with another item at an index.
    pub fn with_item(
        &self,
        alloc: Global,
        index: usize,
        item: Arc<T>,
    ) -> Result<SharedList<T>, NoMemory>
        requires { index < length self.now }
        ensures { IfOk result (λ list. list ≡ slice_set self.now index (arc_value item)) }
    {
        let (before, rest) = self.as_slice().split_at(index);
        let (_, after) = rest.split_at(1);
        let mut items = Vec::with_capacity(alloc, self.len())?;
        share(&mut items, before)?;
        items.push(item)?;
        share(&mut items, after)?;
        SharedList::of(alloc, items)
    }

    /// The first items of the list, so many, or all where it has fewer.
    pub fn first(&self, alloc: Global, count: usize) -> Result<SharedList<T>, NoMemory>
        ensures { IfOk result (λ list. list ≡ take count self.now) }
    {
        let all = self.as_slice();
        let count = count.min(all.len());
        let (front, _) = all.split_at(count);
        let mut items = Vec::with_capacity(alloc, count)?;
        share(&mut items, front)?;
        SharedList::of(alloc, items)
    }
}
