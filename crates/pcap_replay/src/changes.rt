//! The changes of gains of a record, passed to an engine again.
ghost use Rattle.std.specs.Prelude.{
  ◌≡◌,
  ◌+◌,
  ◌-◌,
  ◌^◌,
  ℕ,
  List,
  min,
  pos,
  ◌+ℤ◌,
  FitsSigned,
  is_some,
  IfErr,
  IfSome,
  OnErr,
  OnOk,
};
ghost use Rattle.std.specs.Int.{w64};
ghost use Rattle.pcap_file.specs.RecordedChange.{change_of};
ghost use Rattle.studio_config.specs.Studio.{Studio};
ghost use Rattle.studio_mix.specs.Changed.{with_changes};
ghost use Rattle.studio_engine.specs.Session.{HasSession};
ghost use Rattle.studio_session.specs.Event.{TraceEvent};
ghost use Rattle.pcap_replay.specs.RecordChanges.{changes_by};
ghost use Rattle.pcap_replay.specs.Reasons.{IsOfChange};
ghost use Rattle.pcap_replay.specs.Causes as cause;

use crate::fault::{RecordedChangeFault, ReplayFault};
use crate::state::ReplayState;
use gain_mix::ChangeFault;
use pcap_file::{ChangeHead, MAX_RECORDED_GAINS, read_change};

/// The rule for the changes of gains of a record.
#[derive(Clone, Copy, Debug, PartialEq, Eq)]
pub enum RecordedChanges {
    /// They are passed to the engine where the run took them.
    Taken,
    /// They are passed over, as if the run had taken none.
    Skipped,
}

impl ReplayState {
    /// Passes the change in a packet's octets to the engine. Its time counts from an opening. A change that is
    /// refused, and octets that are no change, change nothing.
    pub(crate) fn change(&mut self, from: u64, octets: &[u8]) -> Result<(), ReplayFault>
        ensures ok { OnOk result ((studio : Studio) (events : List TraceEvent) (datagrams : List (List ℕ))
            → HasSession studio self.old.engine events datagrams
            → HasSession (with_changes studio (changes_by from (change_of octets.now))) self.new.engine events
            datagrams) }
        ensures kept { OnErr result (self.new ≡ self.old) }
        ensures kind { IfErr result (λ fault. IsOfChange fault) }
        ensures fault { IfErr result
            (λ fault. cause.IsChangeFault self.old.changes self.old.engine.mixer from octets.now fault) }
        ensures changes { OnOk result (self.new.changes
            ≡ cause.count_on self.old.changes (changes_by from (change_of octets.now))) }
        ensures clock { self.new.clock ≡ self.old.clock }
        ensures text { self.new.text ≡ self.old.text }
        ensures count { self.new.count ≡ self.old.count }
        ensures turning { self.new.engine.turning ≡ self.old.engine.turning }
    {
        let mut buffer = [0; MAX_RECORDED_GAINS];
        let Some(head) = read_change(octets, &mut buffer) else {
            return Err(self.change_fault(RecordedChangeFault::Octets));
        };
        let Some(at) = change_time(from, &head) else {
            return Err(self.change_fault(RecordedChangeFault::Time));
        };
        match self.engine.change_gains(at, &buffer[..head.gains]) {
            Ok(()) => {
                self.changes = self.changes.saturating_add(1);
                Ok(())
            }
            Err(fault) => Err(self.change_fault(kind_of(fault))),
        }
    }

    /// Returns the fault of the next change.
    fn change_fault(&self, kind: RecordedChangeFault) -> ReplayFault
        ensures change { IsOfChange result }
        ensures fault { result ≡ ReplayFault.Change (min (self.now.changes + 1) (2 ^ 64 - 1)) kind }
    {
        ReplayFault::Change(self.changes.saturating_add(1), kind)
    }
}

/// Returns the time from which a change is in force, as a time of the engine, if it fits. The time of a change counts
/// from an opening.
fn change_time(from: u64, head: &ChangeHead) -> Option<i64>
    ensures value { IfSome result (λ time. time ≡ pos from +ℤ head.now.at) }
    ensures fits { IfSome result (λ time. FitsSigned w64 time) }
    ensures some { is_some result ≡ cause.fits_time from head.now.at }
{
    i64::try_from(from).ok()?.checked_add(head.at)
}

/// Returns the kind of a refusal.
fn kind_of(fault: ChangeFault) -> RecordedChangeFault
    ensures { result ≡ cause.kind_of fault }
{
    match fault {
        ChangeFault::Shape => RecordedChangeFault::Shape,
        ChangeFault::Range => RecordedChangeFault::Range,
        ChangeFault::Time => RecordedChangeFault::Time,
        ChangeFault::TooMany => RecordedChangeFault::TooMany,
    }
}
