// The paper has no code: its definitions and theorems stand in specs/.
#![tactic(auto)]
