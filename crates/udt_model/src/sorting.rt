//! Laws of the stored order of versions.
ghost use Rattle.udt_model.specs.SortedLaws.{OrdersAgree, SortingAgrees, VisibleAgrees, FirstIsVisible, FirstIsNewest};

/// The stored order is that of stored keys, and sorting by it too. What a read of a family sees in a list of its versions
/// is the same with the families forgotten.
pub fn stored_keys_order_versions()
    ensures orders { OrdersAgree }
    ensures sorting { SortingAgrees }
    ensures visible { VisibleAgrees }
{}

/// In the stored order the first version that fits is the newest.
pub fn the_first_is_the_newest()
    ensures visible { FirstIsVisible }
    ensures newest { FirstIsNewest }
{}
