// What readers mean: tables of states, the layers over them, and their laws. No code.
#![tactic(auto)]

use symbols::Symbol;
