// A trace with what is found once for it, by which a delay is answered without a search.

ghost use Rattle.std.specs.Prelude.{◌≡◌, ◌<◌, ◌≤◌, ℕ, ◌||◌, ◌&&◌, IfOk, IfSome, IfNone, Some, None, true, false, map, slice_get};
ghost use Rattle.vx_linear.specs.declared.form.Form.{Form};
ghost use Rattle.vx_linear.specs.Forms.{AreOrdered, NeverSame, is_ordered};
ghost use Rattle.vx_linear.specs.Followed.{forms_of};
ghost use Rattle.vx_dep.specs.Tables.{standings_of, lives_of};
ghost use Rattle.vx_dep.specs.Keys.{key_of, can_pass};
ghost use Rattle.vx_dep.specs.Rows.{split_delay_of, Tells, MayTouch};
ghost use Rattle.vx_dep.specs.Delays.{IsDelay, NeverMeet};
ghost use Rattle.vx_dep.specs.Earlier.{NoneBetween};
ghost use Rattle.vx_dep.specs.Sights.{reaches, has_join, is_live};

use crate::keys::{Key, apart_delay, are_apart, can_pass, keys};
use crate::mode::Mode;
use crate::rows::{Ways, are_quiet, delay_of, is_barred, is_seen, quiet_delay_of};
use crate::tables::{Standing, lives, standings};
use crate::traits::{Traits, reads_written};
use std::alloc::Global;
use vx_base::answer::Answer;
use vx_base::listed::Listed;
use vx_base::outcome::NoMemory;
use vx_flow::trace::Trace;
use vx_linear::form::Form;
use vx_linear::{differs, forms};
use vx_machine::Machine;

/// A trace, the machine and the mode, with the index forms of its accesses, what is known of each operation and of where it
/// stands, what of that is asked first, and what is live where its splits leave.
#[derive(Drop)]
pub(crate) struct Sight<'a> {
    pub(crate) trace: &'a Trace,
    pub(crate) machine: Machine,
    pub(crate) mode: Mode,
    pub(crate) forms: Listed<Option<Form>>,
    pub(crate) standings: Listed<Standing>,
    pub(crate) keys: Listed<Key>,
    pub(crate) lives: Listed<Listed<bool>>,
    ghost forms_exact: { forms ≡ forms_of trace.now },
    ghost ordered: { AreOrdered forms },
    ghost standings_exact: { standings ≡ standings_of machine trace.now },
    ghost keys_exact: { keys ≡ map key_of standings },
    ghost lives_exact: { lives ≡ lives_of trace.now },
}

impl<'a> Sight<'a> {
    /// Finds all that is found once.
    pub(crate) fn make(
        alloc: Global,
        trace: &'a Trace,
        machine: &Machine,
        mode: Mode,
    ) -> Result<Sight<'a>, NoMemory>
        ensures trace { IfOk result (λ sight. sight.trace.now ≡ trace.now) }
        ensures machine { IfOk result (λ sight. sight.machine ≡ machine.now) }
        ensures mode { IfOk result (λ sight. sight.mode ≡ mode) }
    {
        let forms = forms(alloc, trace)?;
        let standings = standings(alloc, trace, machine)?;
        let keys = keys(alloc, standings.as_slice())?;
        let lives = lives(alloc, trace)?;
        Ok(Sight {
            trace,
            machine: *machine,
            mode,
            forms,
            standings,
            keys,
            lives,
        })
    }

    /// The delay of a pair of places; None where there is none.
    pub(crate) fn delay(&self, i: usize, j: usize) -> Option<u32>
        ensures { IsDelay self.now.machine self.now.mode self.now.trace.now i j result }
    {
        match self.key(j) {
            None => self.delay_of_two(i, j),
            Some(b) => self.delay_behind(i, j, b),
        }
    }

    /// The same for a lower operation of which the entry is given.
    #[tactic(auto, using(crate::proofs::Apart::apart_delay_is))]
    pub(crate) fn delay_behind(&self, i: usize, j: usize, b: &Key) -> Option<u32>
        requires { slice_get self.now.keys j ≡ Some b.now }
        ensures { IsDelay self.now.machine self.now.mode self.now.trace.now i j result }
    {
        match self.key(i) {
            None => self.delay_of_two(i, j),
            Some(a) => {
                if i < j && are_apart(a, b) {
                    apart_delay(self.mode, a, b, i < b.joined)
                } else {
                    self.delay_of_two(i, j)
                }
            }
        }
    }

    /// The first place from one on, up to that of a lower operation, of which the entries alone do not say that it has no delay.
    #[tactic(auto, using(crate::proofs::Apart::none_passed))]
    pub(crate) fn next_near(&self, from: u32, place: u32) -> u32
        requires { from ≤ place }
        ensures from { from ≤ result }
        ensures within { result ≤ place }
        ensures none { NoneBetween self.now.machine self.now.mode self.now.trace.now place from result }
    {
        match self.key(place as usize) {
            None => from,
            Some(b) => {
                if can_pass(self.mode, b, from as usize) {
                    self.pass(from, place, b)
                } else {
                    from
                }
            }
        }
    }

    /// The same for a lower operation that passes all that is apart from it.
    #[tactic(auto, using(crate::proofs::Apart::none_passed, crate::proofs::Apart::one_passed))]
    fn pass(&self, from: u32, place: u32, b: &Key) -> u32
        requires in_order { from ≤ place }
        requires stands { slice_get self.now.keys place ≡ Some b.now }
        requires passes { can_pass self.now.mode b.now from ≡ true }
        ensures from { from ≤ result }
        ensures within { result ≤ place }
        ensures none { NoneBetween self.now.machine self.now.mode self.now.trace.now place from result }
    {
        let mut near = from;
        'pass: while near < place {
            match self.key(near as usize) {
                None => return near,
                Some(a) => {
                    if !are_apart(a, b) {
                        return near;
                    }
                    near += 1;
                }
            }
        }
        near
    }

    /// What is asked first of the operation at a place.
    pub(crate) fn key(&self, place: usize) -> Option<&Key>
        ensures some { IfSome result (λ key. slice_get self.now.keys place ≡ Some key.now) }
        ensures none { IfNone result (slice_get self.now.keys place ≡ None) }
    {
        self.keys.as_slice().get(place)
    }

    /// The same by all that is known of the two.
    #[inline(never)]
    #[tactic(auto, using(crate::proofs::Nowhere::not_in_order, crate::proofs::Standing::none_above, crate::proofs::Standing::none_below))]
    fn delay_of_two(&self, i: usize, j: usize) -> Option<u32>
        ensures { IsDelay self.now.machine self.now.mode self.now.trace.now i j result }
    {
        if i >= j {
            return None;
        }
        match self.standing(i) {
            None => None,
            Some(a) => match self.standing(j) {
                None => None,
                Some(b) => self.delay_between(i, j, a, b),
            },
        }
    }

    /// What is known of the operation at a place.
    fn standing(&self, place: usize) -> Option<&Standing>
        ensures some { IfSome result (λ standing. slice_get self.now.standings place ≡ Some standing.now) }
        ensures none { IfNone result (slice_get self.now.standings place ≡ None) }
    {
        self.standings.as_slice().get(place)
    }

    /// Of most pairs only the values count, and what keeps the lower one below; behind a split few rows apply; the others take the
    /// whole table.
    #[tactic(auto, using(crate::proofs::Quiet::quiet_delay_is, crate::proofs::Quiet::split_delay_is))]
    fn delay_between(&self, i: usize, j: usize, a: &Standing, b: &Standing) -> Option<u32>
        requires in_order { i < j }
        requires stands_one { slice_get self.now.standings i ≡ Some a.now }
        requires stands_two { slice_get self.now.standings j ≡ Some b.now }
        ensures { IsDelay self.now.machine self.now.mode self.now.trace.now i j result }
    {
        if a.traits.leaves {
            self.split_delay(i, j, &a.traits, &b.traits, has_join(b, i))
        } else if are_quiet(&a.traits, &b.traits) {
            let last = reaches(a, i, j);
            quiet_delay_of(self.mode, &a.traits, &b.traits, last, has_join(b, i))
        } else {
            self.delay_by_rows(i, j, a, b)
        }
    }

    /// The delay of a pair with a split above. A split below may share its word where the machine issues
    /// two branches, nothing is barred, and no join stands between them.
    fn split_delay(&self, i: usize, j: usize, a: &Traits, b: &Traits, joined: bool) -> Option<u32>
        requires { i < j }
        ensures { result ≡ split_delay_of self.now.mode a.now b.now joined (is_live (slice_get self.now.lives i) i j) }
    {
        if is_seen(b) || is_live(self.lives.as_slice(), i, j) || is_barred(self.mode) {
            Some(1)
        } else if b.leaves {
            if joined { Some(1) } else { Some(0) }
        } else if reads_written(a, b) {
            Some(0)
        } else {
            None
        }
    }

    /// The delay by all rows of the table.
    #[inline(never)]
    #[tactic(auto, using(crate::proofs::Standing::delay_is))]
    fn delay_by_rows(&self, i: usize, j: usize, a: &Standing, b: &Standing) -> Option<u32>
        requires in_order { i < j }
        requires stands_one { slice_get self.now.standings i ≡ Some a.now }
        requires stands_two { slice_get self.now.standings j ≡ Some b.now }
        ensures { IsDelay self.now.machine self.now.mode self.now.trace.now i j result }
    {
        let ways = self.ways(i, j, a, b);
        delay_of(self.mode, &a.traits, &b.traits, ways)
    }

    #[tactic(auto, using(crate::proofs::Standing::tells))]
    fn ways(&self, i: usize, j: usize, a: &Standing, b: &Standing) -> Ways
        requires in_order { i < j }
        requires stands_one { slice_get self.now.standings i ≡ Some a.now }
        requires stands_two { slice_get self.now.standings j ≡ Some b.now }
        ensures { Tells self.now.trace.now i j a.now.traits b.now.traits result }
    {
        Ways {
            last: reaches(a, i, j),
            touch: self.touch(i, j, &a.traits, &b.traits),
            joined: has_join(b, i),
            live: a.traits.leaves && is_live(self.lives.as_slice(), i, j),
        }
    }

    /// Whether two accesses, one of them a store, may touch one word.
    fn touch(&self, i: usize, j: usize, a: &Traits, b: &Traits) -> bool
        ensures yes { result ≡ true → MayTouch self.now.trace.now i j a.now b.now }
        ensures no { result ≡ false → MayTouch self.now.trace.now i j a.now b.now → ⊥ }
    {
        a.is_access && b.is_access && (a.is_store || b.is_store) && !self.never_meet(i, j)
    }

    /// Whether the accesses at two places never touch one word.
    #[tactic(auto, using(crate::proofs::Nowhere::never_meet, crate::proofs::Nowhere::may_meet, crate::proofs::Nowhere::no_form_above, crate::proofs::Nowhere::no_form_below))]
    fn never_meet(&self, i: usize, j: usize) -> bool
        ensures yes { result ≡ true → NeverMeet self.now.trace.now i j }
        ensures no { result ≡ false → NeverMeet self.now.trace.now i j → ⊥ }
    {
        match form_at(self.forms.as_slice(), i) {
            None => false,
            Some(one) => match form_at(self.forms.as_slice(), j) {
                None => false,
                Some(two) => never_meet(one, two),
            },
        }
    }
}

/// Whether two forms never name one word.
fn never_meet(one: &Form, two: &Form) -> bool
    requires one { is_ordered one.now.terms ≡ true }
    requires two { is_ordered two.now.terms ≡ true }
    ensures yes { result ≡ true → NeverSame one.now two.now }
    ensures no { result ≡ false → NeverSame one.now two.now → ⊥ }
{
    match differs(one, two) {
        Answer::Never => true,
        Answer::Always => false,
        Answer::Maybe => false,
    }
}

/// The form of the access at a place.
fn form_at(forms: &[Option<Form>], place: usize) -> Option<&Form>
    ensures some { IfSome result (λ form. slice_get forms.now place ≡ Some (Some form.now)) }
    ensures none { IfNone result ((form : Form) → slice_get forms.now place ≡ Some (Some form) → ⊥) }
{
    match forms.get(place) {
        Some(form) => form.as_ref(),
        None => None,
    }
}

/// Whether no operation between two places writes what the upper one writes.
fn reaches(standing: &Standing, i: usize, j: usize) -> bool
    requires { i < j }
    ensures { result ≡ reaches standing.now i j }
{
    j - i - 1 <= standing.kept
}

/// Whether a join stands between two places.
fn has_join(standing: &Standing, i: usize) -> bool
    ensures { result ≡ has_join standing.now i }
{
    i < standing.joined
}

/// Whether what the lower operation writes is live where the upper one leaves.
fn is_live(lives: &[Listed<bool>], i: usize, j: usize) -> bool
    requires { i < j }
    ensures { result ≡ is_live (slice_get lives.now i) i j }
{
    match lives.get(i) {
        Some(live) => match live.as_slice().get(j - i - 1) {
            Some(live) => *live,
            None => false,
        },
        None => false,
    }
}
