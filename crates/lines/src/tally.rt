// The tally of taken, refused and cut lines.
ghost use Rattle.std.specs.Prelude.{◌≡◌};
ghost use Rattle.lines.specs.Counting.{one_more, counted};

#[derive(Clone, Copy)]
pub struct Tally {
    pub taken: u64,
    pub refused: u64,
    pub cut: u64,
}

// One more; a count stays at the largest word.
#[tactic(auto, unfolding(crate::specs::Counting::one_more))]
pub fn one_more(n: u64) -> u64
    ensures { result ≡ one_more n }
{
    n.saturating_add(1)
}

// Adds a line to the tally that is lent, by its answer, none for a line of any other form: 0 is taken, 16 is cut, all else is refused.
#[tactic(auto, unfolding(crate::specs::Counting::counted))]
pub fn count(tally: &mut Tally, answer: Option<u64>)
    ensures { tally.new ≡ counted tally.old answer }
{
    match answer {
        Some(0) => tally.taken = one_more(tally.taken),
        Some(16) => tally.cut = one_more(tally.cut),
        _ => tally.refused = one_more(tally.refused),
    }
}
