//! What the help of the program says of its output. The pages that it names have all of it.

/// What the lines of the output mean, and on which page of docs they are explained.
pub(crate) const LEGEND: &str = "What play and debug print (docs/FORMATS.md):
  sent HEX      the octets that the server sends, its opening SETTINGS first; dis writes them as frames
  phase         preface, settings, running or ended CODE; last: the highest stream with a request
  window        the connection's windows; owed: octets that were received and not returned yet
  peer, own     the client's settings; the server's, in force once the client has acknowledged them
  acked         whether it has; goaway: the last stream and the code of the client's latest GOAWAY
  block         the open field block: its octets, the size of its list
  table, entry  the header table: entries, octets, maximum; an index, and name and value in hex
  stream        its state and windows; got: octets of content; left: octets of the answer not sent yet

What explain prints (docs/EXPLAIN.md):
  #N @OCTET     item N, which begins after this many octets: a frame in words
  error         a rule was broken: its name (docs/TABLE.md) and section, how far the RFC decides the
                server's reaction, and what the client broke; the line below has the values
  ignored       why a frame has no effect
  sent          a frame that the server sends for the item
  A -> B        a number before and after the item

What serve prints (docs/FORMATS.md, serve):
  connection K  that it is open, with --explain; how it ended; or, by fault N, why not to its end
  K: LINE       with --explain, what explain prints of connection K

What check prints is TAP (docs/CASES.md). Answers in a file: docs/BOOKS.md.

fault N         on standard output, for programs: what was refused (docs/FORMATS.md, Faults). A sentence on
                standard error says what, where and what to do; --quiet leaves it out

--version, -V   prints the version, after a command too

Status: 0 done, 1 a fault or a case that failed, 2 the words were refused or ask for help, 3 the output
could not be written, 4 explain: a connection error; with --strict 5 a broken rule, 6 above a limit,
7 the octets end within a frame, or while an answer waits";
