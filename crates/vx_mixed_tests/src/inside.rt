// Whether the words of a layout lead to words of it. What is tested is `all_lead` of specs/Inside.antt.

ghost use Rattle.std.specs.Prelude.{◌≡◌, ◌<◌, ◌+◌, ℕ, true, Some, length, slice_get};
ghost use Rattle.vx_mixed.specs.LaidSettled.{LeadsTo};
ghost use Rattle.vx_mixed.specs.declared.layout.VirtualWord.{VirtualWord as AWord};
ghost use Rattle.vx_mixed_tests.specs.Inside.{all_lead, are_inside, is_inside, leads_below};

use vx_mixed::layout::{Laid, VirtualWord};

fn is_inside(count: usize, item: &Laid) -> bool
    ensures { result ≡ is_inside count item.now }
{
    match item {
        Laid::Plain { .. } => true,
        Laid::Split { place, .. } => (*place as usize) < count,
    }
}

fn are_inside(count: usize, items: &[Laid]) -> bool
    ensures { result ≡ are_inside count items.now }
{
    items.iter().all(|item| is_inside(count, item))
}

fn leads_below(place: usize, count: usize, word: &VirtualWord) -> bool
    requires { place < count }
    ensures { result ≡ leads_below place count word.now }
{
    match word {
        VirtualWord::Planned { items, .. } => {
            place + 1 < count && are_inside(count, items.as_slice())
        }
        VirtualWord::Drain(_) => place + 1 < count,
        VirtualWord::Transfer(to) => (*to as usize) < count,
        VirtualWord::Choice { place: to, .. } => place + 1 < count && (*to as usize) < count,
        VirtualWord::Call { .. } => place + 1 < count,
        VirtualWord::Return(_) => true,
        VirtualWord::Ends(_) => true,
    }
}

fn all_lead(place: usize, count: usize, words: &[VirtualWord]) -> bool
    requires { place + length words.now ≡ count }
    ensures { result ≡ all_lead place count words.now }
{
    match words {
        [] => true,
        [word, others @ ..] => {
            leads_below(place, count, word) && all_lead(place + 1, count, others)
        }
    }
}

/// Whether each word leads to words among these.
pub fn lead_inside(words: &[VirtualWord]) -> bool
    ensures { result ≡ true → (p q : ℕ) (word : AWord) → slice_get words.now p ≡ Some word → LeadsTo p word q → q < length words.now }
{
    all_lead(0, words.len(), words)
}
