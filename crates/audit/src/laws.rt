//! When an audit finds nothing, as a function that does nothing.

ghost use Rattle.std.specs.Prelude.{◌≡◌, List};
ghost use Rattle.tc_log.specs.declared.event.Event.{Event};
ghost use Rattle.verifier.specs.Checked.{Checked};
ghost use Rattle.data_component.specs.Store.{Store};
ghost use Rattle.transactions.specs.Legal.{Legal};
ghost use Rattle.serial.specs.Audit.{IsAgreed};
ghost use Rattle.audit.specs.Auditing.{IsAuditFault};
ghost use Rattle.audit.specs.declared.auditing.AuditFault.{AuditFault};
ghost use Rattle.audit.specs.declared.auditing.AuditFault.TheVariants.{Memory};

/// Where the log is legal, and agrees with the data components in all that an audit compares, as it
/// does behind every honest run, no fault is so but want of memory.
pub fn agreement_has_no_fault()
    ensures { (ps : List Checked) (h : List Event) (dcs : List Store) (f : AuditFault)
        → Legal ps h → IsAgreed ps h dcs → IsAuditFault ps h dcs f → f ≡ Memory }
{}
