//! Laws over the grammars and the written order, with no code.

ghost use Rattle.std.specs.Prelude.{[]};
ghost use Rattle.lw_json.specs.AnswersFault.{HasAnswersFault};
ghost use Rattle.lw_json.specs.Formats.{IsAnswersFile, IsMachineFile};
ghost use Rattle.lw_json.specs.AnswersText.{HaveOneOrder};
ghost use Rattle.lw_json.specs.Fault.{HasOneFault, NoneIsFaulty};
ghost use Rattle.lw_json.specs.JournalText.{IsLineFront, JournalsReadBack};
ghost use Rattle.lw_json.specs.MachineFault.{HasMachineFault};
ghost use Rattle.lw_json.specs.SetupFile.{IsSetupFile, HasSetupFault};

/// Bytes that are in the grammar of a kind of file have no fault of that kind.
pub fn files_have_no_fault()
    ensures machines { NoneIsFaulty IsMachineFile HasMachineFault }
    ensures setups { NoneIsFaulty IsSetupFile HasSetupFault }
    ensures answers { NoneIsFaulty IsAnswersFile HasAnswersFault }
{}

/// Bytes have one first fault of each kind of file.
pub fn a_first_fault_is_one()
    ensures machines { HasOneFault HasMachineFault }
    ensures setups { HasOneFault HasSetupFault }
    ensures answers { HasOneFault HasAnswersFault }
{}

/// There is one order in which answers are written.
pub fn answers_have_one_order()
    ensures { HaveOneOrder }
{}

/// A journal of answers over names reads back: the inputs, the outputs in the order in which they appear, and the
/// answers in their order. A line that was cut off at its end changes nothing.
pub fn journals_read_back()
    ensures read_back { JournalsReadBack }
    ensures ended { IsLineFront [] }
{}
