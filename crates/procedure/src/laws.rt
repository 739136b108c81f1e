ghost use Rattle.procedure.specs.Laws.{Edges, TallyNeverLowers, SpreadKeepsOthers, SpreadStartsOrLowers, SpreadWritesExactly, SpreadSendsOn, SpreadIsSilent, PairedIsOne, GoodExactly};

// A tally stops at the highest word; a spread writes up to it, and never an equal word; four follow-ups are good, and five are not.
pub fn rules_at_their_edges()
    ensures { Edges }
{}

// A tally never lowers a word, and hands in nothing.
pub fn tally_never_lowers()
    ensures { TallyNeverLowers }
{}

// A spread writes at its second point alone, where it starts or lowers the word.
pub fn spread_starts_or_lowers()
    ensures others { SpreadKeepsOthers }
    ensures second { SpreadStartsOrLowers }
{}

// A spread writes exactly at a job of letter S with two points, whose first word is not 0, and whose sum is a word that the second gives way to.
pub fn spread_writes_exactly()
    ensures { SpreadWritesExactly }
{}

// A spread that writes sends one job along each wire from its second point, and one that does not sends none.
pub fn spread_sends_on()
    ensures sends { SpreadSendsOn }
    ensures silent { SpreadIsSilent }
{}

// A pair answers by the first of its procedures or by the second, as the letter says.
pub fn paired_is_one()
    ensures { PairedIsOne }
{}

// A proposal is good exactly if its follow-ups are at most 4, and each is a job record whose points are on the board.
pub fn good_exactly()
    ensures { GoodExactly }
{}
