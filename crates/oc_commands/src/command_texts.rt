//! The texts printed for `--help` after a command.

ghost use Rattle.std.specs.Prelude.{◌<◌, length};

pub(crate) fn replay_help() -> &'static str
    ensures { 0 < length result.now }
{
    "\
overcast replay: plays a schedule over nodes and a network in memory

Usage: overcast replay [FILE] [--summary [--large]] > REPORT

Reads a schedule to its end, plays its events one by one, and writes the report on
standard output: what came of each event, and each message sent. It writes no file
and touches no network.

  FILE       the schedule; standard input where none is named
  --summary  writes six lines on the last world in place of the report: the
             events, the messages, the nodes that are up, those of them that are
             joined, those that act as root, and the bytes that all nodes hold
  --large    takes a schedule of up to 10000000 lines and 4294967296 bytes, of
             which its publish lines may bring as many; else it has 100000 lines,
             67108864 bytes and 262144 published bytes at most

A schedule is text, with one event on a line. Its first line is
`overcast 1 nodes N chain C`: N nodes, of which nodes 1 to C can act as root. With
`chunk B` after it, a message has at most B bytes of a group; else 4096.
Empty lines, and lines that begin with `#`, are skipped.

Example: node 2 pulls from node 1 what was published there. The report says that
it holds 5 bytes of the group `/a`, and ends with the numbers of events and
messages.

  $ overcast replay <<END
  overcast 1 nodes 2 chain 1
  up 1
  up 2
  publish 1 /a 68656c6c6f
  pull 2 1
  deliver 1
  deliver 2
  held 2
  END
  #1 ok
  #2 ok
  #3 ok
  #4 ok
    m1 2>1 fetch []
  #5 ok
    m2 1>2 chunk /a 0 68656c6c6f
  #6 ok
  #7 ok
    /a 5
  end 7 2

Exit status:
  0  the whole report was written
  1  the input or the output failed
  2  the words are not as under Usage
  3  the schedule has a fault, in the line that is named
  4  out of memory
  5  the schedule passes a limit on its lines, bytes, published bytes or settles
"
}

pub(crate) fn merge_help() -> &'static str
    ensures { 0 < length result.now }
{
    "\
overcast merge: makes one schedule of the records of running nodes

Usage: overcast merge < RECORDS > SCHEDULE

A node that runs with `--log record` writes a record of what it takes. Give the
records of all nodes of a network on standard input, one after another; those of
one node in the order of its runs. The schedule that is written plays the same
inputs at the same nodes in a replay, each message after the event that sent it.

A line that ends with `#`, and a last line that has no end, were cut off where a
node was killed: they are skipped. Where a record tells what the files of a node
held when it started, that is compared with what they hold at this point of the
schedule. A line that can't be taken stops its node there, and what comes after it
is left out; the schedule has all that can be taken.

It reads at most 10000000 lines and 4294967296 bytes, of which the publish lines
may bring as many. `replay --summary --large` plays what it writes.

Example: node 2 pulls nothing, and ticks twice.

  $ cat node1.log node2.log
  #
  overcast 1 nodes 2 chain 1
  up 1
  publish 1 /a 68656c6c6f
  #
  overcast 1 nodes 2 chain 1
  up 2
  tick 2 1
  tick 2 2
  $ cat node1.log node2.log | overcast merge
  overcast 1 nodes 2 chain 1
  up 1
  publish 1 /a 68656c6c6f
  up 2
  tick 2 1
  tick 2 2

Exit status:
  0  every line that is there is in the schedule
  1  the input or the output failed
  2  the words are not as under Usage
  3  a line of the records has a fault, and nothing is written; or the schedule is
     written without the line that is named: with `state`, a node started on other
     files than at this point of the schedule; with `unsent`, no node of the
     records sent this message
  4  out of memory
  5  the records pass a limit on their lines, bytes or published bytes
"
}

pub(crate) fn gen_help() -> &'static str
    ensures { 0 < length result.now }
{
    "\
overcast gen: writes a schedule that follows from a seed

Usage: overcast gen SEED NODES EVENTS > SCHEDULE

The same numbers give the same text. First all nodes start; then come ticks,
deliveries, publishes, crashes and starts. It reads no input.

  SEED    the seed, below 2^64
  NODES   the number of nodes, 1 to 1024
  EVENTS  the number of events, from NODES to 99999

Example: five events of two nodes, by the seed 7.

  $ overcast gen 7 2 5
  overcast 1 nodes 2 chain 2
  up 1
  up 2
  crash 2
  tick 2 4
  deliver 5

Exit status:
  0  the schedule was written
  1  the output failed
  2  the words are not as under Usage, or a number is not in its range
  4  out of memory
"
}

pub(crate) fn node_help() -> &'static str
    ensures { 0 < length result.now }
{
    "\
overcast node: runs a node of a network

Usage: overcast node ID [--turns N] [--probe] [--log inputs|record|brief]
                     [--config FILE] [--dir FOLDER]

Reads the configuration, loads the node with this id from its three files, waits
for connections where the configuration says that it listens, and serves turns
until it is ended. In a turn it takes one thing that came, as a request or a
reply, ticks where that is due, and begins to send. It waits for no client and no
peer, and a turn in which nothing comes ends within a second. Where it listens it
says on standard error.

  ID        the node, one of the configuration
  --turns   ends it after this number of turns, 0 to 1000000000
  --probe   measures the rate to a peer in each turn in which nobody came
  --log     the lines on standard output: `inputs`, as without it, `record` or
            `brief`
  --config  the file of the configuration; standard input where none is named
  --dir     the folder of the three files; the present one where none is named

Files: `control.log` and `control.alt` hold what it remembers of the tree,
`content.log` the groups. They are made where there are none. Whatever was
acknowledged is in them, also after a crash. One program at a time uses them.

Each input that the node takes is written as a line, once it is in the files and
before it is answered. A line that begins with `!` says which request was
refused, and why. With `--log record` the line of an input is written before the
input is in the files, ticks are whole seconds apart, and the header of the
network and a digest of the files as the node found them come first. These lines
hold all content that comes, past every access rule. With `--log brief` there is
instead a line only for what is published, sealed or told of a failure, with the
answer where that is not `ok`; `lost P` for each child whose lease ended; and
`is idle`, `is asking P`, `is joined P rank E.D` or `is acting rank E.D` at the
start and where that is another: a node in which nothing changes writes nothing.

Example: the first of three nodes (examples/three_nodes.toml), which then answers
requests at 127.0.0.1:7001. A POST to the source publishes bytes in a group.

  $ overcast node 1 --config three_nodes.toml > lines &
  $ curl --data-binary hello http://127.0.0.1:7001/news/today
  $ curl http://127.0.0.1:7001/news/today
  hello

Exit status:
  0  all turns were served
  1  the input, the output, a disk or the link failed
  2  the words are not as under Usage, or a number is not in its range
  3  the configuration has a fault, in the key that is named, or lacks the id; or
     a file is no journal, or has a bad frame
  4  out of memory
  5  the configuration is too long, or a file would pass 2^48 bytes
"
}

pub(crate) fn check_help() -> &'static str
    ensures { 0 < length result.now }
{
    "\
overcast check: shows what the files of a node hold

Usage: overcast check ID [--config FILE] [--dir FOLDER]
       overcast check ID NODES CHAIN [--dir FOLDER]

Loads `control.log`, `control.alt` and `content.log` as those of the node with
this id, and writes the state of the node in the tree, its ancestors, its table of
the nodes below it, and the listing of that table; then each group that it holds,
with its bytes. The node must not be running. A file that is missing is
made, with nothing in it.

  ID        the node, one of the configuration, or 1 to NODES
  NODES     the number of nodes, 1 to 1024, where no configuration is read
  CHAIN     the number of nodes that can act as root, 1 to 16 and at most NODES
  --config  the file of the configuration; standard input where none is named
  --dir     the folder of the three files; the present one where none is named

Example: a folder with no files.

  $ overcast check 1 3 2
    node 1 down idle seq 0 rank - log 0/0
    ancestors []
    table []
    listed []

Exit status:
  0  all was written
  1  the input, the output or a disk failed; a disk fails too where a node runs on
     the files
  2  the words are not as under Usage, or a number is not in its range
  3  the configuration has a fault, in the key that is named, or lacks the id; or
     a file is no journal, or has a bad frame
  4  out of memory
  5  the configuration is too long
"
}

pub(crate) fn get_help() -> &'static str
    ensures { 0 < length result.now }
{
    "\
overcast get: downloads a group

Usage: overcast get URL [--follow N] [--from N] [--token-file FILE] [--progress]
                    > CONTENT

Writes the content of the URL on standard output as it comes. It follows two
redirections, so that it may ask any chain member: `http://HOST:PORT/GROUP`, with
`?start=S` to begin at a byte, and `area=A` to be sent to a node of that area.

  --follow      asks again and again for what is new, until the group is sealed or
                N replies have come, N from 1 to 1000000
  --from        begins at this byte, 0 to 2^40: as many as are there already
  --token-file  shows the token in the first line of this file to each node, where
                the access rules of the network want one
  --progress    says `overcast: N bytes` on standard error, N what was written of
                the content, at each 16777216 bytes and at the end

Example: the content of a group, and later what has come since.

  $ overcast get http://127.0.0.1:7001/news/today > today
  $ overcast get http://127.0.0.1:7001/news/today --from 5 >> today

Exit status:
  0  the content was written whole
  1  the output, the link or the file of the token failed
  2  the words are not as under Usage, or a number is not in its range
  3  the first line of the file is no token: 1 to 200 printed ASCII characters
     without a space
  4  out of memory
  5  the file of the token is too long
  6  the URL is bad, the reply has a status but 200 and 302, is no whole reply, or
     redirects a third time
"
}

pub(crate) fn put_help() -> &'static str
    ensures { 0 < length result.now }
{
    "\
overcast put: publishes its input into a group

Usage: overcast put URL [--append | --resume] [--seal] [--live]
                    [--token-file FILE] [--progress] < CONTENT

Sends what comes on standard input to the source, node 1, at
`http://HOST:PORT/GROUP`, in pieces of 524288 bytes, each after the one before.
Where a piece has no answer, or one with status 503, it asks how long the group
is, so that no piece is there twice; it tries again up to four times, a second
apart. The group must have no bytes yet, and is made where the input is empty.

  --append      publishes after what the group has
  --resume      goes on where an earlier `put` of the same input ended: what the
                group has is read of the input and not sent, and not compared
  --seal        then closes the group, so that nothing more goes into it
  --live        sends what comes of the input as soon as it comes, and does not
                wait until there is a whole piece
  --token-file  shows the token in the first line of this file, where the access
                rules of the network want one
  --progress    says `overcast: N bytes` on standard error, N what is in the group
                of the input, at each 16777216 bytes and at the end

Example: a file, which ends as it is.

  $ overcast put http://127.0.0.1:7001/news/today --seal < today

Example: the lines of a program, each when it is written.

  $ tail -f log | overcast put http://127.0.0.1:7001/log --append --live

Exit status:
  0  the whole input is in the group, which is closed where that was asked for
  1  the input, the link or the file of the token failed
  2  the words are not as under Usage
  3  the first line of the file is no token: 1 to 200 printed ASCII characters
     without a space
  4  out of memory
  5  the file of the token is too long
  6  the URL is bad, what came is no reply, or one with the status that is named;
     the group has the length that is named, with which the input does not go
     there; or the input is shorter than what the group has
"
}

pub(crate) fn rules_help() -> &'static str
    ensures { 0 < length result.now }
{
    "\
overcast rules: lists the access rules of a configuration

Usage: overcast rules [--config FILE]

Reads a configuration, and writes a line for each of its access rules: its number,
whether it allows or denies, the method, the prefix of the groups and the area of
which it speaks, `any` for each that it leaves out. The first rule that matches a
request decides. After a rule that can decide nothing comes the number of a rule
before it that matches all that it matches.

  --config  the file of the configuration; standard input where none is named

Example: a rule that the first one leaves nothing to.

  $ overcast rules <<END
  chain = 1
  [[node]]
  id = 1
  address = \"127.0.0.1:7001\"
  [[rule]]
  allow = false
  prefix = \"/news\"
  [[rule]]
  allow = true
  prefix = \"/news/today\"
  method = \"get\"
  END
  1 deny any /news any
  2 allow get /news/today any shadowed by 1

Exit status:
  0  all lines were written
  1  the input or the output failed
  2  the words are not as under Usage
  3  the configuration has a fault, in the key that is named
  4  out of memory
  5  the configuration is too long
"
}
