// Theorems alone, in specs/: PlannerExact, CallerExact, RewriteExact, PlaceExact, CheckExact,
// WorkedChecks, Impostors and EqualResults.
#![tactic(auto)]
