//! A law of reports, as the contract of a function without code.
ghost use Rattle.std.specs.Prelude.{◌≡◌, Err};
ghost use Rattle.sg_kinds.specs.Values.{Bytes};
ghost use Rattle.sg_kinds.specs.declared.spec.Spec.{Spec};
ghost use Rattle.sg_commands.specs.Turn.{Reads, AreReads};
ghost use Rattle.sg_report.specs.Found.{Opens, AreOpens};
ghost use Rattle.sg_report.specs.Refused.{IsRefused};
ghost use Rattle.sg_report.specs.Reports.{report_of};
ghost use Rattle.sg_report.specs.declared.answers.ReportFault.{ReportFault};
ghost use Rattle.sg_report.specs.declared.attrs.Named.{Named};

/// Each refusal is so, whichever right readings it is told by.
pub fn refusals_are_so()
    ensures { (spec : Spec) (reads : Reads) (opens : Opens) → AreReads spec reads → AreOpens spec opens
        → (a : Named) (bytes : Bytes) (f : ReportFault) → report_of spec reads opens a bytes ≡ Err f
        → IsRefused spec bytes f }
{}
