// The theorems that an auditor comes for, over the definitions of `model` alone. No code is here, and nothing depends on this crate.
#![tactic(auto)]
