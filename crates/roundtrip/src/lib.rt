// Theorems alone, in specs/: ReadOfWrite, WriteOfRead, AcceptedExactly, LongestSite, FirstBytes,
// Tags and EqualResults.
#![tactic(auto)]
