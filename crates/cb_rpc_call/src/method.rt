//! The methods by name.
ghost use Rattle.std.specs.Prelude.{◌≡◌};
ghost use Rattle.cb_rpc_call.specs.Methods.{method_in, method_name, most, takes, usage, usages};

/// The table of the methods, in the order in which `help` lists them, given to another macro. A row
/// has a method; its name; its parameters, in the order of their places: those that it needs, and
/// those that may be left out, with an older name behind a bar; and what stands behind its name
/// where it is told how it is called.
macro_rules! methods {
    ($reader:ident $($given:tt)*) => {
        $reader! {
            [$($given)*]
            GetBlockCount = "getblockcount" [] [] "";
            GetBestBlockHash = "getbestblockhash" [] [] "";
            GetBlockHash = "getblockhash" ["height"] [] " height";
            GetBlockHeader = "getblockheader" ["blockhash"] ["verbose"]
                " \"blockhash\" ( verbose )";
            GetBlock = "getblock" ["blockhash"] ["verbosity" | "verbose"]
                " \"blockhash\" ( verbosity )";
            GetChainTips = "getchaintips" [] [] "";
            GetBlockchainInfo = "getblockchaininfo" [] [] "";
            GetRawMempool = "getrawmempool" [] ["verbose"] " ( verbose )";
            GetMempoolInfo = "getmempoolinfo" [] [] "";
            GetMempoolEntry = "getmempoolentry" ["txid"] [] " \"txid\"";
            GetRawTransaction = "getrawtransaction" ["txid"] ["verbosity" | "verbose" "blockhash"]
                " \"txid\" ( verbosity \"blockhash\" )";
            GetTxOut = "gettxout" ["txid" "n"] ["include_mempool"]
                " \"txid\" n ( include_mempool )";
            DecodeRawTransaction = "decoderawtransaction" ["hexstring"] [] " \"hexstring\"";
            SendRawTransaction = "sendrawtransaction" ["hexstring"] ["maxfeerate"]
                " \"hexstring\" ( maxfeerate )";
            TestMempoolAccept = "testmempoolaccept" ["rawtxs"] ["maxfeerate"]
                " [\"rawtx\"] ( maxfeerate )";
            SubmitBlock = "submitblock" ["hexdata"] ["dummy"] " \"hexdata\" ( \"dummy\" )";
            SubmitHeader = "submitheader" ["hexdata"] [] " \"hexdata\"";
            Generate = "generate" ["nblocks"] ["maxtries"] " nblocks ( maxtries )";
            GetNetworkInfo = "getnetworkinfo" [] [] "";
            GetNetTotals = "getnettotals" [] [] "";
            GetConnectionCount = "getconnectioncount" [] [] "";
            GetPeerInfo = "getpeerinfo" [] [] "";
            AddNode = "addnode" ["node" "command"] [] " \"node\" \"command\"";
            DisconnectNode = "disconnectnode" [] ["address" "nodeid"] " ( \"address\" nodeid )";
            SetNetworkActive = "setnetworkactive" ["state"] [] " state";
            Ping = "ping" [] [] "";
            Uptime = "uptime" [] [] "";
            Logging = "logging" [] ["level"] " ( \"level\" )";
            Help = "help" [] ["command"] " ( \"command\" )";
            Stop = "stop" [] [] "";
        }
    };
}

/// The method with a name.
macro_rules! named {
    ([$given:expr] $($method:ident = $name:literal $needed:tt $others:tt $words:literal;)*) => {
        match $given {
            $($name => Some(Method::$method),)*
            _ => None,
        }
    };
}

/// The name of a method.
macro_rules! name {
    ([$given:expr] $($method:ident = $name:literal $needed:tt $others:tt $words:literal;)*) => {
        match $given {
            $(Method::$method => $name,)*
        }
    };
}

/// How a method is called.
macro_rules! usage {
    ([$given:expr] $($method:ident = $name:literal $needed:tt $others:tt $words:literal;)*) => {
        match $given {
            $(Method::$method => concat!($name, $words),)*
        }
    };
}

/// How each method is called, a line each.
macro_rules! usages {
    (
        [] $first:ident = $its:literal $no:tt $none:tt $nothing:literal;
        $($method:ident = $name:literal $needed:tt $others:tt $words:literal;)*
    ) => {
        concat!($its, $nothing $(, "\n", $name, $words)*)
    };
}

/// How many arguments a method takes at most.
macro_rules! most {
    ([$given:expr] $($method:ident = $name:literal $needed:tt $others:tt $words:literal;)*) => {
        match $given {
            $(Method::$method => count!($needed $others),)*
        }
    };
}

/// How many parameters there are.
macro_rules! count {
    ([$($needed:literal)*] [$($other:literal $(| $older:literal)?)*]) => {
        count!($($needed)* $($other)*)
    };
    () => { 0 };
    ($one:literal) => { 1 };
    ($one:literal $two:literal) => { 2 };
    ($one:literal $two:literal $three:literal) => { 3 };
}

/// Whether a method has a parameter with a name.
macro_rules! takes {
    (
        [$given:expr, $sought:expr]
        $($method:ident = $name:literal $needed:tt $others:tt $words:literal;)*
    ) => {
        match $given {
            $(Method::$method => is_any!($sought, $needed $others),)*
        }
    };
}

/// Whether a parameter has this name.
macro_rules! is_any {
    ($sought:expr, [$($needed:literal)*] [$($other:literal $(| $older:literal)?)*]) => {
        is_any!($sought; $($needed)* $($other)* $($($older)?)*)
    };
    ($sought:expr;) => { false };
    ($sought:expr; $($name:literal)+) => { matches!($sought, $($name)|+) };
}

/// Every method, as `help` lists them: a line each, its name and its parameters. What stands in
/// round brackets may be left out.
pub const METHODS: &str = methods!(usages);

/// A method that is answered.
#[derive(Clone, Copy)]
pub enum Method {
    GetBlockCount,
    GetBestBlockHash,
    GetBlockHash,
    GetBlockHeader,
    GetBlock,
    GetChainTips,
    GetBlockchainInfo,
    GetRawMempool,
    GetMempoolInfo,
    GetMempoolEntry,
    GetRawTransaction,
    GetTxOut,
    DecodeRawTransaction,
    SendRawTransaction,
    TestMempoolAccept,
    SubmitBlock,
    SubmitHeader,
    Generate,
    GetNetworkInfo,
    GetNetTotals,
    GetConnectionCount,
    GetPeerInfo,
    AddNode,
    DisconnectNode,
    SetNetworkActive,
    Ping,
    Uptime,
    Logging,
    Help,
    Stop,
}

impl Method {
    /// The method with this name.
    pub fn named(name: &str) -> Option<Method>
        ensures { result ≡ method_in name.now }
    {
        methods!(named name)
    }

    /// Its name.
    pub fn name(self) -> &'static str
        ensures { result.now ≡ method_name self }
    {
        methods!(name self)
    }

    /// Its name and its parameters, as `help` tells them. What stands in round brackets may be left
    /// out.
    pub fn usage(self) -> &'static str
        ensures { result.now ≡ usage self }
    {
        methods!(usage self)
    }

    /// `METHODS`.
    pub fn usages() -> &'static str
        ensures { result.now ≡ usages }
    {
        METHODS
    }

    /// How many arguments it takes at most.
    pub fn most(self) -> usize
        ensures { result ≡ most self }
    {
        methods!(most self)
    }

    /// Whether it has a parameter with this name.
    pub fn takes(self, name: &str) -> bool
        ensures { result ≡ takes self name.now }
    {
        methods!(takes self, name)
    }
}
