//! The help.

/// The help: each word, in plain English.
pub const HELP: &str = "\
express-desk [--desk FOLDER] [--proxy HOST:PORT] WORD ..

For a stranger who has a card:
  send CARD [FILE]       leave a letter: the file's text, or what you type, up to 998 bytes or so
  resume                 go on with a letter that is still on its way, and tell what became of it
  discard [NUMBER]       give up a letter that is still on its way; where there are several, the one of
                         the number that `status` shows

For an owner of a desk:
  open PAIR              make a desk from the pair file that your operator gave you
  box NAME [COUNT]       make COUNT boxes (16 if you name no number, at most 64), and print their card;
                         --until 2027-03-01 names the card's last day, which else is a year away
  card NAME              print that card again
  letters                fetch and print the letters that came
  letters --out FOLDER   fetch the letters that came, and write each into a new file of the folder
  retire NAME            close these boxes: their card is handed out no more, and their letters still come
  retire --now NAME      fetch the letters of these boxes for the last time, and give the boxes up
  forget                 forget the letters that were fetched; boxes and cards stay
  status                 show the servers, the boxes, and what is still to be done
  resume                 finish what a stop or a fault left undone; every other word does so first
  adopt                  go on with a copy of the desk's folder; the folder that it was copied from must
                         not be used any more

The desk lies in ~/.express-desk, or in the folder that --desk names. It is always safe to run a word again.
Servers at onion addresses are reached through Tor, at 127.0.0.1:9050 or else Tor Browser's 127.0.0.1:9150;
--proxy names another place, as EXPRESS_PROXY does, and then every server is reached through it.
The exit status is 0 when it is done, 1 when it isn't done yet (run the word again), 2 for words that
aren't these or a name that isn't taken, 3 for a file that isn't right, 4 when the desk is in use, and
5 when letters met.
";
