// What the definitions of the model say together.
ghost use Rattle.std.specs.Prelude.{◌≡◌, All, List};
ghost use Rattle.s80_model.specs.declared.item.SessionItem.{SessionItem};
ghost use Rattle.s80_model.specs.Asked.{Ask, IsTimed};
ghost use Rattle.s80_model.specs.Replies.{AllAsk, AsksIn, Work};

use s80_doit::a_doit_is_told_one_thing;
use s80_fileout::there_is_one_moment;

/// An item asks one thing, and so do items one after another: the replies to an input are one list of bytes. For a file of changes that is so
/// where the clock is told.
pub fn one_ask()
    ensures one { (work : Work) (item : SessionItem) (ask other : Ask) → IsTimed work.settings item → AsksIn work item ask → AsksIn work item other → other ≡ ask }
    ensures all { (work : Work) (items : List SessionItem) (asks others : List Ask) → All (IsTimed work.settings) items → AllAsk work items asks → AllAsk work items others → others ≡ asks }
{
    a_doit_is_told_one_thing();
    there_is_one_moment();
}
