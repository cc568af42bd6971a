//! Laws of the definitions. Each is a function with no code, whose contract is the law.
ghost use Rattle.lw_plain.specs.Ends.{OnePlainEnd};
ghost use Rattle.lw_plain.specs.Known.{NothingKnown, BatchIsKnown, KnownOutputs, FirstIsRevealed};
ghost use Rattle.lw_plain.specs.Laws.{CellsAreAsked, CrowdIsFull, SearchFinds};
ghost use Rattle.lw_plain.specs.Taken.{AskedAreTaken, TakesOnAndOn, TakenIsOne};
ghost use Rattle.lw_plain.specs.Turns.{SettledIsAsked, AsksOnAndOn};
ghost use Rattle.lw_plain.specs.Worked.{WorkedTables};

/// The word of each cell of the learner's table is in a batch.
pub fn cells_are_asked()
    ensures { CellsAreAsked }
{}

/// Closing ends with a row that is new only where no further access word was allowed.
pub fn crowd_is_full()
    ensures { CrowdIsFull }
{}

/// The search for a cut tries enough places.
pub fn search_finds_cut()
    ensures { SearchFinds }
{}

/// The learner has one result at most.
pub fn plain_end_is_unique()
    ensures { OnePlainEnd }
{}

/// What the definitions say of two small machines.
pub fn as_worked()
    ensures { WorkedTables }
{}

/// No answers know no words.
pub fn nothing_is_known()
    ensures { NothingKnown }
{}

/// Answers to the words of a batch, by which it is known, add its words to what is known.
pub fn batch_is_known()
    ensures { BatchIsKnown }
{}

/// What is read of a known word are the machine's outputs.
pub fn known_outputs()
    ensures { KnownOutputs }
{}

/// The first known word on which a machine differs is the least word that is revealed.
pub fn first_is_revealed()
    ensures { FirstIsRevealed }
{}

/// What has to be asked of a batch is what is taken from it.
pub fn asked_are_taken()
    ensures { AskedAreTaken }
{}

/// What is taken from batches behind others comes behind what was taken from these.
pub fn takes_on_and_on()
    ensures { TakesOnAndOn }
{}

/// A batch that was settled is asked.
pub fn settled_is_asked()
    ensures { SettledIsAsked }
{}

/// What is asked behind other batches comes behind what was asked for these.
pub fn asks_on_and_on()
    ensures { AsksOnAndOn }
{}

/// What is taken from batches in turn is one, but for the order.
pub fn taken_is_one()
    ensures { TakenIsOne }
{}
