//! What a play of a whole script is: the panel, the cycles and the guard of a certificate. `Bench`, `Act`, `Doing`,
//! `Guard` and `Played` of specs/ say it in states, events and single steps of the machine; it stands on `ags_script`
//! for commands, on `ags_deda` for the panel, on `ags_timed` for cycles and on `ags_safe` for what a certificate
//! declares and promises. `laws` says that the events of a play are one run, on which all that is shown lies, that a
//! play under a certificate is a run of the certificate, and safe where the certificate is, that one without meets
//! nothing, that each script has one play, how plays follow one another, and how many steps and puts there are. Nothing
//! here runs: the playing stands above.
#![tactic(auto)]

pub mod laws;
