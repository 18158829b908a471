//! The laws of the report's definition: a function that does nothing, whose contract they are.

ghost use Rattle.registry_report.specs.Report.{EndIsExact, LeastIsLeast, LookupIsExact, ReportIsModelRun};

/// Theorem, no effect at run time: the report of a script follows the model.
///
/// - `modelled`: over the commands of every script the registry of the report goes on by lawful steps of the model, and takes no reference
///   without a section.
/// - `lookups`, `ends`: what the report computes of the history is what the history says.
/// - `least`: the first-fit slot, and the first obstacle of a destroy, are the lowest-numbered.
#[tactic(auto, using(crate::proofs::Lookups::lookup_is, crate::proofs::sound::Commands::report_runs))]
pub fn report_laws()
    ensures modelled { ReportIsModelRun }
    ensures lookups { LookupIsExact }
    ensures ends { EndIsExact }
    ensures least { LeastIsLeast }
{}
