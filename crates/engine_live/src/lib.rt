// Theorems of the engine, and no code: from every state, one round by the plan and good syncs end in the page's report.
#![tactic(auto)]
