//! Guards of links: in which calls the capacity stays.

ghost use Rattle.std.specs.Prelude.{◌≡◌, ◌<◌, length};
ghost use Rattle.slotmap_links.specs.Lists.{IsFree, IsIn};

use slotmap_links::Links;

/// Guards of `put_last`.
pub fn put_last(links: &mut Links, owner: u32, member: u32)
    requires owner { owner < length links.old.lists }
    requires free { IsFree links.old member }
    // A member is put into a list, and the capacity stays.
    // Refuses `put_asks_for_memory`: `ensures` of `put_last`.
    ensures put_last_keeps_the_capacity { links.new.capacity ≡ links.old.capacity }
{
    links.put_last(owner, member);
}

/// Guards of `take_out`.
pub fn take_out(links: &mut Links, owner: u32, member: u32)
    requires owner { owner < length links.old.lists }
    requires member { IsIn links.old owner member }
    // A member is taken out of a list, and the capacity stays.
    // Refuses `take_out_asks_for_memory`: `ensures` of `take_out`.
    ensures take_out_keeps_the_capacity { links.new.capacity ≡ links.old.capacity }
{
    links.take_out(owner, member);
}

/// Guards of `clear`.
pub fn clear(links: &mut Links)
    // All lists are emptied, and the capacity stays.
    // Holds by `ensures` of `clear`.
    ensures clear_keeps_the_capacity { links.new.capacity ≡ links.old.capacity }
{
    links.clear();
}
