// No code: the laws of a NAND store over several calls are theorems in specs/.
#![tactic(auto)]
