// No code: the laws of storage over several calls are theorems in specs/.
#![tactic(auto)]
