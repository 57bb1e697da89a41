// No code: the laws of the engine over several calls are theorems in specs/.
#![tactic(auto)]
