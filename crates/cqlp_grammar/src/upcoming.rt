//! What is still to be read of a message.

ghost use Rattle.std.specs.Prelude.{◌≡◌, ◌+◌, ◌≤◌, ◌++◌, ◌∷◌, [], Option, drop, length, max, option_map, if◌then◌else◌};

use crate::grammar::Group;
use crate::productions::{Expected, group_fields};
use std::marker::Model;

/// Fields that are still to be read.
#[derive(Clone, Copy)]
pub enum Slot {
    One(Expected),
    /// This many of a group.
    Many(Group, u32),
}

impl Slot {
    ghost use Rattle.std.specs.Prelude.{ℕ, ◌-◌, ◌<◌};
    ghost use Rattle.cqlp_grammar.specs.declared.grammar.Group.{Group as Counted};
    ghost use Rattle.cqlp_grammar.specs.declared.upcoming.Slot.TheVariants.{Many as Several};

    /// One group fewer, where there are several.
    #[inline(always)]
    fn count_down(&mut self)
        ensures { (g : Counted) (n : ℕ) → self.old ≡ Several g n → 1 < n → self.new ≡ Several g (n - 1) }
    {
        if let Slot::Many(_, left) = self
            && *left > 1
        {
            *left -= 1;
        }
    }
}

/// The fields that are still to be read, the next ones last. No message ever needs more room than there is.
#[derive(Drop)]
pub struct Upcoming {
    slots: [Slot; 16],
    len: usize,
}

impl Model for Upcoming {
    ghost use Rattle.std.specs.Prelude.{List, ◌≤◌, take};
    ghost use Rattle.cqlp_grammar.specs.declared.upcoming.Slot.{Slot};
    ghost use Rattle.cqlp_grammar.specs.Upcoming.{Fits};

    ghost Value = { List Slot };

    ghost view = { λ t. take t.len t.slots };

    ghost invariant = { λ t. (t.len ≤ 16) × Fits 0 (take t.len t.slots) };
}

impl Upcoming {
    ghost use Rattle.cqlp_grammar.specs.Upcoming.{IsDue, IsFirst, IsSlot, Pops, IsRead, AreRead};
    ghost use Rattle.cqlp_grammar.specs.Upcoming.{need, opened, room_after_due, room_for, symbols_in, wanted, wants};
    ghost use Rattle.cqlp_grammar.specs.Opening.{Opens};
    ghost use Rattle.cqlp_grammar.specs.Productions.{copies, group as symbols_of_group};

    pub fn new() -> Self
        ensures { result ≡ [] }
    {
        Upcoming {
            slots: [Slot::Many(Group::Warnings, 1); 16],
            len: 0,
        }
    }

    pub(crate) fn clear(&mut self)
        ensures { self.new ≡ [] }
    {
        self.len = 0;
    }

    /// What is due next.
    #[inline(always)]
    pub fn due(&self) -> Option<&Expected>
        ensures { IsDue self.now (option_map (λ d. d.now) result) }
    {
        if self.len == 0 {
            return None;
        }
        match &self.slots[self.len - 1] {
            Slot::One(due) => Some(due),
            Slot::Many(group, _) => Some(&group_fields(*group)[0]),
        }
    }

    /// Goes past what is due next.
    #[inline(always)]
    #[tactic(auto, using(crate::proofs::Stack::passes_group))]
    pub fn pass(&mut self)
        ensures { (o : Option Expected) → IsDue self.old o → Pops self.old o self.new }
    {
        if let Some(group) = self.open_group() {
            self.push_others(group);
        }
    }

    /// Takes off the field that is due next, or the group that it begins, and answers which group that is.
    #[inline(always)]
    fn open_group(&mut self) -> Option<Group>
        ensures { Opens self.old result self.new }
    {
        if self.len == 0 {
            return None;
        }
        let last = self.len - 1;
        match self.slots[last] {
            Slot::Many(group, left) => {
                if left > 1 {
                    self.slots[last].count_down();
                } else {
                    self.len = last;
                }
                Some(group)
            }
            Slot::One(_) => {
                self.len = last;
                None
            }
        }
    }

    /// Puts this many groups before all else.
    #[tactic(auto, using(crate::proofs::Stack::symbols_pushed))]
    pub(crate) fn push_many(&mut self, group: Group, count: u32)
        requires { length self.old + (opened group + 1) ≤ 16 }
        ensures symbols { symbols_in self.new ≡ copies count (symbols_of_group group) ++ symbols_in self.old }
        ensures height { length self.new ≤ length self.old + 1 }
    {
        if count > 0 {
            self.push_slot(Slot::Many(group, count));
        }
    }

    /// Puts a field before all else.
    #[tactic(auto, using(crate::proofs::Stack::symbols_pushed))]
    pub(crate) fn push(&mut self, due: Expected)
        requires read { IsRead due }
        requires room { length self.old + max 1 (room_after_due due) ≤ 16 }
        ensures symbols { symbols_in self.new ≡ wanted due ∷ symbols_in self.old }
        ensures height { length self.new ≡ length self.old + 1 }
    {
        self.push_slot(Slot::One(due));
    }

    /// Puts a field before all else, where it is.
    pub(crate) fn push_if(&mut self, conforms: bool, due: Expected)
        requires read { IsRead due }
        requires room { length self.old + max 1 (room_after_due due) ≤ 16 }
        ensures symbols { symbols_in self.new ≡ (if conforms then wanted due ∷ [] else []) ++ symbols_in self.old }
        ensures height { length self.new ≤ length self.old + 1 }
    {
        if conforms {
            self.push(due);
        }
    }

    /// Puts these fields before all else.
    #[tactic(auto, using(crate::proofs::Stack::read_at, crate::proofs::Stack::room_at, crate::proofs::Stack::fields_pushed, crate::proofs::Stack::fields_none))]
    pub(crate) fn push_fields(&mut self, fields: &[Expected])
        requires read { AreRead fields.now }
        requires room { length self.old + room_for fields.now ≤ 16 }
        ensures symbols { symbols_in self.new ≡ wants fields.now ++ symbols_in self.old }
        ensures height { length self.new ≡ length self.old + length fields.now }
    {
        let mut left = fields.len();
        while left > 0 {
            left -= 1;
            self.push_slot(Slot::One(fields[left]));
        }
    }

    /// Puts the fields of a group but the first before all else.
    #[tactic(auto, using(crate::proofs::Stack::others_wanted, crate::proofs::Stack::others_have_room))]
    fn push_others(&mut self, group: Group)
        requires { length self.old + opened group ≤ 16 }
        ensures symbols { symbols_in self.new ≡ drop 1 (symbols_of_group group) ++ symbols_in self.old }
        ensures room { (w : Expected) → IsFirst (wanted w) (symbols_of_group group)
            → length self.new + room_after_due w ≤ 16 }
    {
        self.push_fields(&group_fields(group)[1..]);
    }

    fn push_slot(&mut self, slot: Slot)
        requires lawful { IsSlot slot }
        requires room { length self.old + need slot ≤ 16 }
        ensures { self.new ≡ self.old ++ slot ∷ [] }
    {
        self.slots[self.len] = slot;
        self.len += 1;
    }
}
