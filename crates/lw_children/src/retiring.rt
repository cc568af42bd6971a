//! The retiring of the links of sessions.
ghost use Rattle.lw_children.specs.Crews.{AreLinked, AreLinkedWith, RetiresAll, RetiresWith};

use lw_line::LineSul;
use lw_outside::Spawner;
use lw_sul::Session;
use lw_system::link_of;

/// Retires the links of sessions, in their order. May wait for the children's ends.
pub fn retire_all<P: Spawner>(spawner: &mut P, sessions: Vec<Session<LineSul<P::Link>>>)
    requires linked { AreLinked P.Link.state sessions.items (P.state spawner.old) }
    ensures { RetiresAll P.Link.state sessions.items (P.state spawner.old) (P.state spawner.new) }
{
    for session in sessions {
        let link = link_of(session);
        spawner.retire(link);
    }
}

/// Retires the links of sessions, and then one that no session was made of, if there is one. May wait for the children's ends.
pub fn retire_with<P: Spawner>(
    spawner: &mut P,
    sessions: Vec<Session<LineSul<P::Link>>>,
    loose: Option<P::Link>,
)
    requires linked { AreLinkedWith P.Link.state sessions.items loose (P.state spawner.old) }
    ensures { RetiresWith P.Link.state sessions.items loose (P.state spawner.old)
        (P.state spawner.new) }
{
    retire_all(spawner, sessions);
    if let Some(link) = loose {
        spawner.retire(link);
    }
}
