// The text of a script and the report of it: a client, a server and a logger, which pass a node on, answer over it, and
// end it.

pub const CLIENT_SERVER_LOGGER: &str = "bus1 script 1
clock 0
peer 0 4096 16 4096 16
peer 1 4096 16 4096 16
peer 2 4096 16 4096 16
wire 1 4 0
wire 2 4 0
wire 2 4 1
commands 0
send 0 to 2,6 with 4 data 676574
await
slice @0
await
await
release 2
destroy 4
commands 1
await
send 0 to @0.0 with - data 6f6b
release @0.0
slice @0
destroy 4
commands 2
await
release @0.0
slice @0
turns -
";

pub const CLIENT_SERVER_LOGGER_REPORT: &str = "bus1 report 1
peers 3
peer 0 epoch 0 clock 8
send 0 to 2,6 with 4 data 676574 = sent 2 ok,ok
recv = data 4.1.0 node 4 slice 0 handles - bytes 6f6b
slice 0 = ok
recv = destroyed 6.1.0 handle 2
recv = released 6 node 4
release 2 = ok
destroy 4 = destroyed 8
recv = destroyed 8.0.0 node 4
peer 1 epoch 0 clock 6
recv = data 2.0.0 node 4 slice 0 handles 6 bytes 676574
send 0 to 6 with - data 6f6b = sent 4 ok
release 6 = ok
slice 0 = ok
destroy 4 = destroyed 6
recv = destroyed 6.1.0 node 4
peer 2 epoch 0 clock 2
recv = data 2.0.1 node 4 slice 0 handles 2 bytes 676574
release 2 = ok
slice 0 = ok
end
";
