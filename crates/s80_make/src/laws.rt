// That the line at the end is one.
ghost use Rattle.std.specs.Prelude.{◌≡◌, ℕ, List};
ghost use Rattle.s80_make.specs.declared.tally.Tally.{Tally as Counted};
ghost use Rattle.s80_make.specs.Items.{make_items};
ghost use Rattle.s80_make.specs.Tally.{CountsAll, nothing};
ghost use Rattle.s80_model.specs.Asked.{Ask};
ghost use Rattle.s80_model.specs.Replies.{AllAsk, Work};

use s80_doit::a_doit_answers_one_small;
use s80_model::one_ask;

/// What so many classes ask is one list, and so is what its replies come to.
pub fn make_has_one_line()
    ensures asks { (work : Work) (count : ℕ) (asks others : List Ask) → AllAsk work (make_items count) asks → AllAsk work (make_items count) others → others ≡ asks }
    ensures tally { (work : Work) (asks : List Ask) (tally other : Counted) → CountsAll work asks nothing tally → CountsAll work asks nothing other → other ≡ tally }
{
    one_ask();
    a_doit_answers_one_small();
}
