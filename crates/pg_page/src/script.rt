//! The part of the page that shows the proof: what stands there, and the script that fills it. The script plays the
//! moves that it is given on a board and never judges whether a move is legal.

// What the script fills, and below it the command that checks the certificate.
pub(crate) const VIEWER: &str = "<h2 id='proof'>The proof</h2>
<p class='hint'>Choose a move to go on. The arrow keys do the same: left is back, right goes on along the chosen \
game, or else by the first move that leads on. The address of this page keeps the moves so far, so a line can be \
sent to somebody.</p>
<section id='viewer' hidden>
<div id='left'><div id='board'></div>
<div id='bar'><button id='first' title='to the start'>&#171;</button> <button id='back' title='one move back (left \
arrow)'>&#8249;</button> <button id='next' title='one move on (right arrow)'>&#8250;</button> <button id='last' \
title='to the end of the game'>&#187;</button> <button \
id='flip' title='turn the board'>&#8645;</button></div>
<p id='line'></p></div>
<div id='right'><p id='words' aria-live='polite'></p><div id='moves'></div></div>
</section>
<noscript><p>The proof is shown by a script, which is part of this page.</p></noscript>
<h2>Shorter games</h2>
<ul id='shorter'></ul>
<p class='small'>The verdict is proved: <code>pg</code> writes a page only where its proved check of the certificate \
has said yes. The explanations on this page are not proved; they are the words of <code>pg why</code>, from the same \
certificate. Who wants to be sure runs <code>pg answer CERT";

// The script. It folds the lines of the trees (docs/FORMATS.md) into nodes, and shows the one at which the reader
// stands. What is said of a node it has from these lines and from the element `phrases`.
pub(crate) const SCRIPT: &str = "'use strict';
(function () {
  var LETTERS = 'ABCDEFGHIJKLMNOPQRSTUVWXYZabcdefghijklmnopqrstuvwxyz0123456789-_';
  var BOUNDS = ['', 'captures', 'promotions', 'pawn files', 'travel', 'journeys'];
  var words = element('phrases').dataset;
  var problem = document.body.dataset, plies = +problem.plies;
  var lines = element('trees').textContent.split('\\n');
  var nodes = {}, named = {}, roots = {}, counts = {}, reasons = {};
  var games = [], chosen = 0, path = [], isFlipped = false, marked = null;

  function element(id) { return document.getElementById(id); }

  function make(name, text, parent) {
    var made = document.createElement(name);
    made.textContent = text;
    parent.appendChild(made);
    return made;
  }

  // ---- The trees. An expanded node is kept by the number of its line; other nodes are read where they are shown.

  function fold() {
    var tree = 0, open = [], kept = [], i, first, last, node, cut;
    kept.count = 0;
    for (i = 0; i < lines.length; i++) {
      first = lines[i].charAt(0);
      last = lines[i].slice(-1);
      if (first === '/') { tree = +lines[i].slice(1); roots[tree] = i + 1; open = []; }
      else if (first === ';') { counts[tree] = lines[i].slice(1); }
      else if (first === ')' || first === '=') { close(open, i); }
      else if (last === '(' || last === '.') {
        node = { line: i, end: lines.length, up: open[open.length - 1], isTold: last === '(', games: 0 };
        nodes[i] = node;
        open.push(node);
      } else if (last === '*' && open.length) { open[open.length - 1].games++;
      } else if ((cut = /^[^(.,*@:]*:[0-9]+(.+)$/.exec(lines[i]))) { reasons[i] = reasonOf(kept, cut[1]); }
    }
  }

  // The reason that a cut has: its words, or where they stand among those of the last 64 different ones.
  function reasonOf(kept, words) {
    if (words.charAt(0) === '~') return kept[+words.slice(1)];
    kept[kept.count % 64] = words;
    kept.count++;
    return words;
  }

  function close(open, i) {
    var parts = /^.([0-9]*)(?:[*]([0-9]+))?(?::([0-9]+))?(?: (.*))?$/.exec(lines[i]), node = open.pop();
    node.end = i;
    node.games += +(parts[2] || 0);
    node.code = +(parts[3] || 0);
    node.words = parts[4] || words.untold;
    if (parts[1]) named[parts[1]] = node;
    if (open.length) open[open.length - 1].games += node.games;
  }

  // The move of a line: its squares, counted from a1, and its text.
  function moveOf(text) {
    return { from: LETTERS.indexOf(text.charAt(0)), to: LETTERS.indexOf(text.charAt(1)), san: text.slice(2) };
  }

  // What a line says: the move, the mark behind it, what stands behind the mark, and the expanded node, if it is one.
  function entryAt(i, isRoot) {
    var parts = isRoot ? ['', '', lines[i]] : /^([^(.,*@:]+)(.*)$/.exec(lines[i]);
    return { line: i, move: moveOf(parts[1]), mark: parts[2].charAt(0), rest: parts[2].slice(1), node: nodes[i] };
  }

  function children(node) {
    var list = [], i = node.line + 1;
    while (i < node.end) {
      list.push(entryAt(i, false));
      i = nodes[i] ? nodes[i].end + 1 : i + 1;
    }
    return list;
  }

  function child(entry, san) {
    if (!entry || !entry.node || !entry.node.isTold) return null;
    return children(entry.node).filter(function (kid) { return plain(kid.move.san) === plain(san); })[0] || null;
  }

  // What the tree says after moves; null where this page does not tell it.
  function entryOf(moves) {
    return moves.reduce(function (entry, move) { return child(entry, move.san); }, entryAt(roots[plies], true));
  }

  // ---- Words, as `pg why` has them.

  function plain(san) { return san.replace(/[+#]/g, ''); }

  function movetext(sans, space) {
    return sans.map(function (san, i) { return (i % 2 ? '' : i / 2 + 1 + '.' + space) + san; }).join(' ');
  }

  function sansOf(moves) { return moves.map(function (move) { return move.san; }); }

  function after(sans) { return sans.length ? words.after + movetext(sans, ' ') : words.start; }

  // The bound with a code. Behind that by journeys stand those by tolls, one for each tariff.
  function boundOf(code) {
    return BOUNDS[code] || (code >= BOUNDS.length && code < BOUNDS.length + +words.tariffs ? 'tolls' : 'other bounds');
  }

  // How a child counts at a node with so many plies left.
  function kindOf(entry, left) {
    if (entry.mark === '@') return 'reference';
    if (entry.mark === '*') return 'lead';
    if (entry.mark === ',') return 'off';
    if (entry.mark === ':') return boundOf(parseInt(entry.rest, 10));
    if (left > 2 || entry.node.games > 0) return 'lead';
    return BOUNDS[entry.node.code] || 'played out';
  }

  function kindsOf(kids, left) {
    var kinds = {};
    kids.forEach(function (kid) {
      var kind = kindOf(kid, left);
      (kinds[kind] = kinds[kind] || []).push(kid);
    });
    return kinds;
  }

  // The moves to the node that a reference names.
  function lineOf(node) {
    return node.up ? lineOf(node.up).concat(entryAt(node.line, false).move.san) : [];
  }

  function wordsOf(entry) {
    var reason = reasons[entry.line], cited = named[entry.rest];
    if (entry.node) return entry.node.words;
    if (entry.mark === ':') return reason ? words.excluded + reason : words.cut + entry.rest + words.unseen;
    if (entry.mark === '*') return words.solution;
    if (entry.mark === ',') return words.elsewhere;
    return words.as + (cited ? after(lineOf(cited)) : words.after + 'moves that this page does not have') + words.barren;
  }

  // ---- The board.

  function boardAfter(moves) {
    var board = ('RNBQKBNRPPPPPPPP' + '................................' + 'pppppppprnbqkbnr').split('');
    moves.forEach(function (move) { play(board, move); });
    return board;
  }

  // Plays a legal move: castling moves the rook too, a capture en passant takes the pawn beside, and a pawn may \
  promote.
  function play(board, move) {
    var man = board[move.from], promoted = /=(.)/.exec(move.san), rank = move.from - move.from % 8;
    var isPawn = man.toUpperCase() === 'P', isSide = move.from % 8 !== move.to % 8;
    if (isPawn && isSide && board[move.to] === '.') board[rank + move.to % 8] = '.';
    if (move.san.slice(0, 5) === 'O-O-O') { board[rank + 3] = board[rank]; board[rank] = '.'; }
    else if (move.san.slice(0, 3) === 'O-O') { board[rank + 5] = board[rank + 7]; board[rank + 7] = '.'; }
    if (promoted) man = man === 'P' ? promoted[1] : promoted[1].toLowerCase();
    board[move.to] = man;
    board[move.from] = '.';
  }

  function placementOf(board) {
    var ranks = [], rank;
    for (rank = 7; rank >= 0; rank--) {
      ranks.push(board.slice(8 * rank, 8 * rank + 8).join('').replace(/[.]+/g, function (gap) { return gap.length; }));
    }
    return ranks.join('/');
  }

  // Where a square stands on the drawing, whose corner at the top left is a8, or h1 where it is turned.
  function placeOf(square) {
    var file = square % 8, rank = Math.floor(square / 8);
    return ' x=\"' + (isFlipped ? 7 - file : file) + '\" y=\"' + (isFlipped ? rank : 7 - rank) + \
        '\" width=\"1\" height=\"1\"/>';
  }

  // The digits of the ranks and the letters of the files on a board that is turned.
  function turnedLabels() {
    return 'hgfedcba'.split('').map(function (file, i) {
      return '<text x=\"-.25\" y=\"' + (i + .62) + '\">' + (i + 1) + '</text>' +
        '<text x=\"' + (i + .5) + '\" y=\"8.38\">' + file + '</text>';
    }).join('');
  }

  // The board, with the squares of the last move marked, if there is one.
  function drawing(board, last) {
    var men = board.map(function (man, i) {
      var kind = man.toUpperCase(), color = man === kind ? 'w' : 'b';
      return man === '.' ? '' : '<use class=\"' + color + '\" href=\"#m' + kind + '\"' + placeOf(i);
    });
    var marks = (last ? [last.from, last.to] : []).map(function (i) { return '<rect class=\"last\"' + placeOf(i); });
    var turned = '<use href=\"#field\"/><g class=\"labels\">' + turnedLabels() + '</g>';
    return '<svg class=\"board\" viewBox=\"-.5 0 8.5 8.5\" role=\"img\" aria-label=\"' + placementOf(board) + \
        '\">' + (isFlipped ? turned : '<use href=\"#squares\"/>') +
      marks.join('') + men.join('') + '</svg>';
  }

  // ---- The reader's place.

  function isFront(game, moves) {
    return moves.every(function (move, i) { return game[i] && game[i].san === move.san; });
  }

  // The games that go on after moves, the chosen one first.
  function gamesFrom(moves) {
    var list = games.filter(function (game) { return game.length > moves.length && isFront(game, moves); });
    var at = list.indexOf(games[chosen]);
    return at > 0 ? list.splice(at, 1).concat(list) : list;
  }

  function nextMove() {
    var entry = entryOf(path), left = plies - path.length, lead, game = gamesFrom(path)[0];
    if (game) return game[path.length];
    if (!entry || !entry.node || !entry.node.isTold) return null;
    lead = children(entry.node).filter(function (kid) { return kindOf(kid, left) === 'lead'; })[0];
    return lead ? lead.move : null;
  }

  function go(moves) {
    path = moves;
    show('');
    var address = movetext(sansOf(path), '').replace(/#/g, '%23');
    if (location.hash.slice(1).replace(/%20/g, ' ') !== address) location.hash = address;
  }

  function goBack() { if (path.length) go(path.slice(0, -1)); }

  function goOn() {
    var move = nextMove();
    if (move) go(path.concat(move));
  }

  function goTo(number, plies) { chosen = number; go(games[number].slice(0, plies)); }

  function flip() {
    isFlipped = !isFlipped;
    show('');
  }

  // The move with this text after moves, of the tree or of a game.
  function moveAfter(moves, san) {
    var entry = child(entryOf(moves), san), game = gamesFrom(moves).filter(function (game) {
      return plain(game[moves.length].san) === plain(san);
    })[0];
    return entry ? entry.move : game ? game[moves.length] : null;
  }

  function readAddress() {
    var text = location.hash.slice(1), moves = [], i, move, words;
    try { text = decodeURIComponent(text); } catch (error) { text = ''; }
    words = text.replace(/[0-9]+[.]+/g, ' ').split(' ').filter(function (word) { return word; });
    for (i = 0; i < words.length; i++) {
      move = moveAfter(moves, words[i]);
      if (!move) break;
      moves.push(move);
    }
    path = moves;
    show(i < words.length ? 'The address goes on with ' + words[i] + ', which this page does not have here.' : '');
  }

  // ---- What is shown.

  function question() {
    return \"pg why CERT '\" + (path.length ? movetext(sansOf(path), ' ') : '-') + \"'\";
  }

  function showLine() {
    var line = element('line');
    line.textContent = '';
    make('button', 'start', line).onclick = function () { go([]); };
    path.forEach(function (move, i) {
      line.appendChild(document.createTextNode(i % 2 ? ' ' : ' ' + (i / 2 + 1) + '. '));
      make('button', move.san, line).onclick = function () { go(path.slice(0, i + 1)); };
    });
  }

  function showRows(kids, left, parent) {
    var rows = make('ul', '', parent);
    rows.className = 'rows';
    kids.forEach(function (kid) {
      var row = make('li', '', rows), button = make('button', kid.move.san, row);
      button.className = 'move';
      button.onclick = function () { go(path.concat(kid.move)); };
      make('span', wordsOf(kid), row);
    });
  }

  function showFolded(title, kids, left, parent) {
    var folded;
    if (!kids) return;
    folded = make('details', '', parent);
    make('summary', title, folded);
    showRows(kids, left, folded);
  }

  function showMoves(entry, left) {
    var moves = element('moves'), kinds;
    moves.textContent = '';
    if (!entry || entry.mark === '.') {
      make('p', 'This page stops here. The certificate goes on, and says more by', moves);
      make('code', question(), moves);
    }
    if (!entry || !entry.node || !entry.node.isTold) return;
    kinds = kindsOf(children(entry.node), left);
    if (kinds.lead) showRows(kinds.lead, left, moves);
    BOUNDS.concat('tolls', 'other bounds').forEach(function (kind) {
      if (kinds[kind]) showFolded(kinds[kind].length + ' excluded by ' + kind, kinds[kind], left, moves);
    });
    if (kinds.reference) showFolded(kinds.reference.length + ' the same as after other moves', \
        kinds.reference, left, moves);
    if (kinds['played out']) showFolded(kinds['played out'].length + ' played out without a game', \
        kinds['played out'], left, moves);
    if (kinds.off) showFolded(kinds.off.length + ' not on the diagram', kinds.off, left, moves);
  }

  function show(note) {
    var board = boardAfter(path), left = plies - path.length, entry = entryOf(path);
    element('board').innerHTML = drawing(board, path[path.length - 1]);
    element('viewer').dataset.placement = placementOf(board);
    element('words').textContent = after(sansOf(path)) + ': ' + (entry ? wordsOf(entry) : 'not told on this page') +
      (note ? ' (' + note + ')' : '');
    element('first').disabled = element('back').disabled = !path.length;
    element('next').disabled = !nextMove();
    element('last').disabled = !games.length;
    markMove();
    showLine();
    showMoves(entry, left);
  }

  function showShorter() {
    var tree, root, list = element('shorter'), said;
    for (tree = 0; tree < plies && roots[tree] !== undefined; tree++) {
      root = entryAt(roots[tree], true);
      said = root.node ? counts[tree] + words.barren : wordsOf(root);
      make('li', Math.floor(tree / 2) + (tree % 2 ? '.5' : '.0') + ' moves: ' + said, list);
    }
    if (!tree) make('li', 'There are none to look at.', list);
  }

  // Marks the move of the chosen game that led to the reader's place.
  function markMove() {
    var game = games[chosen];
    if (marked) marked.className = '';
    marked = game && game.buttons && isFront(game, path) && game.buttons[path.length - 1] || null;
    if (marked) marked.className = 'here';
  }

  // Makes each move of a game a button that leads to the board after it.
  function showGame(game, number) {
    game.item.textContent = '';
    game.buttons = game.map(function (move, i) {
      var made;
      game.item.appendChild(document.createTextNode(i % 2 ? ' ' : (i ? ' ' : '') + (i / 2 + 1) + '. '));
      made = make('button', move.san, game.item);
      made.onclick = function () { goTo(number, i + 1); };
      return made;
    });
    if (!game.length) make('button', '-', game.item).onclick = function () { go([]); };
  }

  // A list that is folded is filled with buttons when it is opened.
  function showGames() {
    var list = element('games'), frame = list.parentNode;
    Array.prototype.forEach.call(list.querySelectorAll('[data-moves]'), function (span) {
      var game = span.dataset.moves.split(' ').filter(function (word) { return word; }).map(moveOf);
      game.item = span.parentNode;
      games.push(game);
    });
    if (frame.tagName !== 'DETAILS') return games.forEach(showGame);
    frame.addEventListener('toggle', function () {
      games.forEach(showGame);
      markMove();
    }, { once: true });
  }

  // How much of the tree is told.
  function showExtent() {
    var told = Object.keys(nodes).filter(function (i) { return nodes[i].isTold; }).length;
    var text = told < parseInt(counts[plies], 10) ? 'Of the tree of ' + problem.length + ' moves this page has ' + told + \
        ' of ' + counts[plies] + '; where it stops, it says what to ask.' : '';
    if (text) element('viewer').insertAdjacentElement('beforebegin', make('p', text, document.body));
  }

  function onKey(event) {
    if (event.altKey || event.ctrlKey || event.metaKey) return;
    if (event.key === 'ArrowLeft') goBack();
    else if (event.key === 'ArrowRight') goOn();
    else return;
    event.preventDefault();
  }

  fold();
  showGames();
  showShorter();
  showExtent();
  element('viewer').hidden = false;
  element('first').onclick = function () { go([]); };
  element('back').onclick = goBack;
  element('next').onclick = goOn;
  element('last').onclick = function () { goTo(chosen, games[chosen].length); };
  element('flip').onclick = flip;
  document.addEventListener('keydown', onKey);
  window.addEventListener('hashchange', readAddress);
  readAddress();
}());
";
