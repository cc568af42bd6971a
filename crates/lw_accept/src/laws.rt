//! Laws that the definitions of acceptors keep. They compute nothing.
ghost use Rattle.lw_accept.specs.AcceptorFile.{AcceptorFilesHaveNoFault, AcceptorFilesHaveOneValue, HaveOneAcceptorFault};
ghost use Rattle.lw_accept.specs.Laws.{AcceptorsAreSure, AnswersAreTold, OthersGiveNone, ViewsAreMachines, ViewsAreViews, ViewsAreWithinLimits, ViewsDiffer};

/// Bytes of the grammar have no fault.
pub fn acceptor_files_have_no_fault()
    ensures { AcceptorFilesHaveNoFault }
{}

/// No bytes are the file of two acceptors.
pub fn acceptor_files_have_one_value()
    ensures { AcceptorFilesHaveOneValue }
{}

/// No bytes have two first faults, but that memory may be wanted.
pub fn acceptor_faults_are_one()
    ensures { HaveOneAcceptorFault }
{}

/// An acceptor's machine is one, within the limits; it has the pairs that such a machine may have, and is no other acceptor's.
pub fn views_are_machines()
    ensures machines { ViewsAreMachines }
    ensures limits { ViewsAreWithinLimits }
    ensures views { ViewsAreViews }
    ensures differ { ViewsDiffer }
{}

/// What answers over `?` and an acceptor's letters tell, and what they are worth.
pub fn answers_are_told()
    ensures told { AnswersAreTold }
    ensures sure { AcceptorsAreSure }
    ensures none { OthersGiveNone }
{}
