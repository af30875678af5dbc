//! What `--help` and `--version` say.
ghost use Rattle.std.specs.Prelude.{◌≡◌};
ghost use Rattle.hags_words.specs.Help.{help_of};

use crate::command::CommandName;

/// What `--version` says.
pub const VERSION: &[u8] = b"hags 0.1.0\n";

const ALL: &[u8] = b"\
hags: group membership for clusters, proved

usage: hags run [--kinds LIST]
       hags load N
       hags daemon --node N [--inc I] [--turns T | --lasting]
                   [--remote [--entries] [--silence S]] [--mend M] [--gap G]
       hags status WHAT --node N [--turns T]
       hags client --node N [--turns T] [--key K]
       hags table GROUP

commands:
  run     plays the script on standard input, and writes the transcript of all
          that its daemons did
  load    plays a script that it generates, of N steps at eight nodes, and
          writes how many views, entries and refusals came of it
  daemon  serves node N of the settings on standard input, over UDP
  status  asks the daemon of node N what it knows, and writes the answer
  client  hands the calls on standard input to the daemon of node N, and writes
          the answers and what their client hears
  table   plays the script on standard input with clients that each keep a map
          of their groups, and writes the maps of GROUP at its end

An example: one node, and one client that joins a group.

  printf 'mode fixed\\nnode 1\\nbegin\\nclient 1 a A\\njoin a db 7\\nflow\\n' |
    hags run

status:
  0  done               4  read fault
  1  faulty words       5  write fault
  2  faulty input       6  link fault
  3  no memory          7  too much kept
  9  no reply          10  session lost
                       11  daemon full
                       12  paused
Where it is not 0, a line on standard error says what was wrong.

`hags COMMAND --help` says more of a command, and `hags --version` which
version this is.

pages: README.md; docs/examples.md, scripts line by line; docs/operating.md,
daemons; docs/messages.md, what each message means
";

const RUN: &[u8] = b"\
hags run: plays a script and writes its transcript

usage: hags run [--kinds LIST] < SCRIPT

It reads the script on standard input to its end, and then writes a line for
each thing that happens, in order. A script has its settings first (mode, nodes
and so on), then the line `begin`, and then what happens: clients and their
calls, deliveries, losses, ticks, stops and starts.

  --kinds LIST    only lines of these kinds, joined by commas, each once: up,
                  down, ring, in, base, put, heard, cast, asked, told, noted,
                  refused, show

An example:

  printf 'mode fixed\\nnode 1\\nbegin\\nclient 1 a A\\njoin a db 7\\nflow\\n' |
    hags run --kinds put,heard

It writes two lines:

  put 1 1.1.1 db 0 once join 1.1.7.1
  heard 1.1.7.1 1.1.1 db 0 once-join 1.1.7.1 =

status:
  0  the whole transcript was written
  1  the words are faulty; nothing was read
  2  the script is faulty: `hags: line L: WHY` names its first faulty line;
     nothing was written
  3  no memory
  4  read fault
  5  write fault
  7  the packets of the run passed 536,870,912 bytes; what was recorded up to
     there was written

pages: docs/examples.md, scripts line by line; docs/messages.md, what each
message means; README.md
";

const LOAD: &[u8] = b"\
hags load: plays a script that it generates, and writes a summary

usage: hags load N

It reads nothing. Eight nodes come into one view, and a client of each joins a
group. Then come N steps, N from 1 to 2,000, each at a node that a fixed
sequence of numbers picks: mostly a message, and else a vote on a state, a node
that stops and comes back, or a partition that is healed. The same N always
gives the same.

An example:

  hags load 1

It writes how many steps there were, how many times a node entered a view, put
an entry into its list, handed one to a client and told one of a refusal:

  load 1
  views 32
  puts 86
  heard 58
  told 1

status:
  0  the summary was written
  1  the words are faulty
  3  no memory
  5  write fault
  7  the packets of the run passed 536,870,912 bytes; nothing was written

pages: docs/command-line.md; README.md
";

const DAEMON: &[u8] = b"\
hags daemon: serves a node of a cluster, over UDP

usage: hags daemon --node N [--inc I] [--turns T | --lasting]
                   [--remote [--entries] [--silence S]] [--mend M] [--gap G]
                   < SETTINGS

It reads the settings on standard input to their end: node lines, `port` and so
on, then the line `begin`, and then what clients of the node do first. All
daemons of a cluster have the same lines before `begin`. Node N receives on UDP
port PORT + N of all its addresses. A line is written for each thing that
happens at the node.

  --node N     its number, from 1 to 32
  --inc I      its incarnation, from 1 to 4,294,967,295. It must be greater at
               each start of the node; without it the clock's seconds are taken,
               so wait a second between two starts
  --turns T    it ends after T turns, from 1 to 4,294,967,295, which is also
               what is taken without it. A turn takes in one datagram, or waits
               20 milliseconds for one
  --lasting    in place of --turns: it does 18,446,744,073,709,551,615 turns, so
               that none uses it up
  --remote     serve clients on other machines too
  --entries    with --remote: tell them what an entry is, in the line before
               the first that they hear of it
  --silence S  with --remote: a client of which nothing came for S ticks of 100
               milliseconds, from 10 to 1,000,000, is gone, with a goodbye
  --mend M     a node that was left behind for M ticks in a row, from 10 to
               10,000, asks for a view of the nodes that it reaches
  --gap G      it ends where G milliseconds, from 100 to 3,600,000, or more went
               by between two turns, as where it was stopped, or got no time

An example, a node alone that ends by itself after a second or so:

  printf 'node 1\\nadapter 1 1 127.0.0.1\\nport 4000\\nbegin\\n' |
    hags daemon --node 1 --turns 50

status:
   0  all turns were done
   1  the words are faulty; nothing was read
   2  the settings are faulty: `hags: line L: WHY` names their first faulty
      line; the port was not opened
   3  no memory
   4  read fault
   5  write fault
   6  the port could not be opened, or 16 receives in a row failed
  12  a pause was too long (--gap)

pages: docs/operating.md; docs/formats.md, the settings; docs/command-line.md
";

const STATUS: &[u8] = b"\
hags status: asks a daemon what it knows

usage: hags status WHAT --node N [--turns T] < SETTINGS

It reads the settings of the cluster on standard input, asks the daemon of node
N over UDP, and writes its answer. WHAT is one of these:

  hats        the rings of its adapters: a line for each network
  hagsns      its view: the number, the coordinator, the members
  hagsgr      the groups that it holds: leader, members, value
  hagsvote    the votes that run
  hagscl      the clients of the daemon: for how many ticks each was silent, how
              many lines it has not read, whom it joined
  hagsd       the daemon itself: its version, the digest of its settings, what
              it did and received

  --node N     the node that is asked, from 1 to 32
  --turns T    how many datagrams are received at most, from 1 to 4,294,967,295;
               1,000 without it. It waits 20 milliseconds for each

An example:

  printf 'node 1\\nadapter 1 1 127.0.0.1\\nport 4000\\nbegin\\n' |
    hags status hagsns --node 1

status:
  0  the answer was written; it is empty where there is nothing to tell
  1  the words are faulty; nothing was read
  2  the settings are faulty: `hags: line L: WHY` names their first faulty line;
     nothing was sent
  3  no memory
  4  read fault
  5  write fault
  6  no port could be opened, or 16 receives in a row failed
  9  no reply

pages: docs/operating.md, what each line says; docs/command-line.md
";

const CLIENT: &[u8] = b"\
hags client: uses a daemon of a cluster as a client on another machine

usage: hags client --node N [--turns T] [--key K] < SETTINGS

It reads the settings of the cluster on standard input, and behind the line
`begin` the calls of one client, of which the first is `client N NAME -`. It
hands them to the daemon of node N over UDP, one after the other, each once the
last one has its answer. That daemon runs with --remote. It writes a line for
each answer, `did K taken` or `did K refused` for the call K, and one for each
thing that its client hears.

  --node N     the node of the daemon, from 1 to 32
  --turns T    how many turns it does, from 1 to 4,294,967,295; 1,000 without
               it. In a turn it sends its state and waits 20 milliseconds at
               most for an answer
  --key K      its key, by which the daemon knows it from its other clients,
               from 1 to 4,294,967,295: another one at each start. Without it
               the clock's milliseconds are taken, and two clients that start in
               the same one share a key

An example:

  printf '%s\\n' 'node 1' 'adapter 1 1 127.0.0.1' 'port 4000' begin \\
      'client 1 a -' 'join a db 7' |
    hags client --node 1 --key 7

status:
   0  all turns were done, and each call has its answer
   1  the words are faulty; nothing was read
   2  the input is faulty: `hags: line L: WHY` names its first faulty line;
      nothing was sent
   3  no memory
   4  read fault
   5  write fault
   6  no port could be opened, or 16 receives in a row failed
   9  no reply: a call has no answer after the last turn
  10  session lost: the daemon was started anew, or let the client go
  11  daemon full: it keeps no more clients, or let it go before an answer

pages: docs/command-line.md; docs/remote-sessions.md
";

const TABLE: &[u8] = b"\
hags table: plays a script whose clients keep a map, and writes the maps

usage: hags table GROUP < SCRIPT

It reads the script on standard input to its end and plays it as `hags run`
does, but each client keeps a map of keys and values for each of its providers,
whatever votes its `client` line names. A message `KEY=VALUE` to the group puts
a pair, one without `=` takes its key out, and one that begins with `=` changes
nothing. A provider that joins by a vote of the members (`phases=n`) is sent
the map in the messages of their votes, 1,000 bytes in each phase.

It writes a line for each provider of GROUP, in the order of nodes, names of
clients and providers, with the view and the number of entries of the group's
list that its client heard:

  table PROVIDER VIEW LEN whole PAIRS    the whole map: KEY=VALUE in the order
                                         of keys, joined by commas, or -
  table PROVIDER VIEW LEN part -         not all of the map is known to it

An example:

  printf '%s\\n' 'mode fixed' 'node 1' begin 'client 1 a A' 'client 1 b A' \\
      'join a db 1 phases=n' flow 'message a db 1 x=1' flow \\
      'join b db 2 phases=n' flow | hags table db

It writes two lines:

  table 1.1.1.1 1.1.1 5 whole x=1
  table 1.1.2.3 1.1.1 5 whole x=1

status:
  0  the lines were written
  1  the words are faulty; nothing was read
  2  the script is faulty: `hags: line L: WHY` names its first faulty line;
     nothing was written
  3  no memory
  4  read fault
  5  write fault
  7  the packets of the run passed 536,870,912 bytes; nothing was written

pages: docs/library.md, how it is made; docs/formats.md, the lines; README.md
";

/// What `--help` says of all commands, or of one, to the byte.
pub fn help_text(about: Option<CommandName>) -> &'static [u8]
    ensures { result.now ≡ help_of about }
{
    match about {
        None => ALL,
        Some(CommandName::Run) => RUN,
        Some(CommandName::Load) => LOAD,
        Some(CommandName::Daemon) => DAEMON,
        Some(CommandName::Status) => STATUS,
        Some(CommandName::Client) => CLIENT,
        Some(CommandName::Table) => TABLE,
    }
}
