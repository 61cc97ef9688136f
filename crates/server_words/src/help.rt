//! The help, and the version.

/// The version.
pub const VERSION: &str = "express-server 1\n";

/// The help: each word, in plain English.
pub const HELP: &str = "\
express-server WORD ..

  run SETTINGS           run the server of this settings file, until it is stopped
  status SETTINGS        ask the server of this settings file how it stands
  check LOG              say what this log holds, and whether it is whole
  owner SETTINGS LANE    make the key of an owner's lane, and print its line for the owner's pair file;
                         a server that runs already takes it when it starts again
  --help                 print this help
  --version              print the version

A server may be ended at any moment, also by a kill: what it answered is in its log. The exit status is
0 when it is done, 2 for words that aren't these, 3 for bad settings, 4 when the folder or the log can't
be opened, 5 when the log failed while the server ran, 6 when an address can't be used or there is none, 7
when no memory is left, and 8 when no server answers at the address under status.
";
